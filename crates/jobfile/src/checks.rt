// The checks that a file must pass before its lookup begins, and its numbers.
ghost use Rattle.std.specs.Prelude.{◌≡◌, ◌+◌, ◌*◌, ◌≤◌, Err, length, get_or};
ghost use Rattle.std.specs.Result.{MatchResult};
ghost use Rattle.torus.specs.Bytes.{AreBytes, words};
ghost use Rattle.answers.specs.Checks.{passed};
ghost use Rattle.jobfile.specs.Layout as Layout;
ghost use Rattle.jobfile.specs.File.{file_packing};
ghost use Rattle.jobfile.specs.Reader as Reader;

use crate::layout;
use answers::{Checked, Refusal};
use tables::{Lawful, Numbers, Packing, Visibility};

// Word i of the file.
fn number_at(file: &[u8], i: usize) -> u64
    requires { 4 * i + 4 ≤ length file.now }
    ensures { result ≡ get_or (words file.now) i 0 }
{
    torus::word_at(file, i) as u64
}

// Number i of section one, from 0 up.
fn header_number(file: &[u8], i: usize) -> u64
    requires { 4 * i + 8 ≤ length file.now }
    ensures { result ≡ Layout.header_number i (words file.now) }
{
    number_at(file, 1 + i)
}

// The words of the header.
pub fn header_words(file: &[u8]) -> usize
    requires { 4 ≤ length file.now }
    ensures { result ≡ Layout.header_words (Layout.first_count (words file.now)) }
{
    layout::header_words(torus::word_at(file, 0))
}

// 5, before anything else: the length and the first count.
fn beginning(file: &[u8]) -> Checked
    ensures { result ≡ Reader.beginning file.now }
{
    if file.len() < 4
        || file.len() / 4 < header_words(file)
        || layout::LARGEST_FILE < file.len()
        || file.len() % 4 != 0
        || !layout::is_first_count(torus::word_at(file, 0))
    {
        return Err(Refusal::Length);
    }
    Ok(())
}

// The packing of a file's job: the vertical one where s is 1 and d is above 10.
#[tactic(auto, unfolding(crate::specs::File::file_packing))]
fn file_packing(s: u64, d: u64) -> Packing
    ensures { result ≡ file_packing s d }
{
    if s == 1 && tables::HORIZONTAL_SELECTORS < d {
        Packing::Vertical
    } else {
        Packing::Horizontal
    }
}

// The numbers of section one and d behind them, and the packing that they give.
pub fn read_numbers(file: &[u8]) -> Numbers
    requires { 28 ≤ length file.now }
    ensures { result ≡ (Reader.read_job file.now).numbers }
{
    let n = header_number(file, 0);
    let g = header_number(file, 1);
    let l = header_number(file, 2);
    let m = header_number(file, 3);
    let s = header_number(file, 4);
    let d = number_at(file, layout::depth_at(torus::word_at(file, 0)));
    Numbers {
        packing: file_packing(s, d),
        visibility: Visibility::Public,
        scheme: trgsw::Scheme::new(n, g, l),
        M: m,
        s,
        d,
    }
}

// 5, for any other length or count of section three.
fn check_sections(file: &[u8], x: Lawful) -> Checked
    requires { Reader.Begins file.now }
    ensures { result ≡ Reader.sections x.numbers file.now }
{
    let selectors = header_words(file) as u64 + x.numbers.d * (1 + x.block_size());
    let classes = x.table_size();
    answers::exact(file.len(), selectors + 1 + classes)?;
    let count = number_at(file, selectors as usize);
    if count != classes {
        return Err(Refusal::Length);
    }
    Ok(())
}

// A file that passes the checks, and its numbers.
#[derive(Clone, Copy)]
pub struct JobFile<'a> {
    pub bytes: &'a [u8],
    pub numbers: Lawful,
    pub ghost of_bytes: { AreBytes bytes.now },
    pub ghost passes: { Reader.file_refusal bytes.now ≡ passed },
    pub ghost read: { numbers.numbers ≡ (Reader.read_job bytes.now).numbers },
}

impl<'a> JobFile<'a> {
    // A file, or what refuses it before its lookup begins.
    #[tactic(auto, unfolding(crate::specs::Reader::file_refusal))]
    pub fn read(bytes: &'a [u8]) -> Result<JobFile<'a>, Refusal>
        ensures { MatchResult result (λ file. file.bytes.now ≡ bytes.now) (λ refusal. Reader.file_refusal bytes.now ≡ Err refusal) }
    {
        beginning(bytes)?;
        let numbers = read_numbers(bytes).lawful()?;
        check_sections(bytes, numbers)?;
        Ok(JobFile { bytes, numbers })
    }
}
