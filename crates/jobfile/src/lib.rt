// Job files: the reader. It takes every byte string.
#![tactic(auto)]

pub mod checks;
pub mod layout;
pub mod parts;
pub mod streams;
pub mod text;

ghost use Rattle.std.specs.Prelude.{◌≡◌, ◌*◌, length};
ghost use Rattle.trgsw.specs.Parameters.{parameters, block_size};
ghost use Rattle.lookup.specs.Calls.{lookup};
ghost use Rattle.jobfile.specs.File.{file_job};
ghost use Rattle.jobfile.specs.Reader as Reader;
ghost use Rattle.jobfile.specs.Inner as Inner;

use answers::{Ledger, Refusal};
use checks::JobFile;
use layout::{AMPLITUDES_ROOM, BLOCKS_ROOM, SAMPLE_ROOM, WORK_ROOM, room};
use parts::SectionTwo;
use tables::Lawful;

// What comes of a file that is accepted: what its lookup reports, and the bytes of the sample at the front of a room for the largest. An
// array with a size beside it can be copied, which an `ArrayVec` can't.
#[derive(Clone, Copy)]
pub struct Outcome {
    pub ledger: Ledger,
    pub size: usize,
    pub sample: [u8; SAMPLE_ROOM],
}

// The lookup of a job that is taken apart.
fn evaluate(x: Lawful, blocks: &[u8], amplitudes: &[u8], classes: &[u8]) -> Result<Outcome, Refusal>
    ensures { let j = file_job x.numbers blocks.now amplitudes.now classes.now in
        Reader.Gives result (lookup j) (Inner.sample j) }
{
    let mut sample = room::<SAMPLE_ROOM>();
    let mut work = room::<WORK_ROOM>();
    let size = 4 * x.sample_size() as usize;
    let work_size = size * (x.numbers.d as usize + 1);
    let lent = lookup::Lent {
        numbers: x.numbers,
        blocks,
        amplitudes,
        table: classes,
        entry_amplitudes: &[],
    };
    let ledger = lookup::lookup(&lent, &mut sample[..size], &mut work[..work_size])?;
    Ok(Outcome {
        ledger,
        size,
        sample,
    })
}

impl JobFile<'_> {
    // Its job is looked up, with the blocks and the amplitudes brought together in the slices that are lent for them. The selectors stand
    // behind the header, and the classes behind the count of section three.
    fn look_up_with(&self, blocks: &mut [u8], amplitudes: &mut [u8]) -> Result<Outcome, Refusal>
        requires { let x = self.now.numbers.numbers in
            (length blocks.old ≡ 4 * (x.d * block_size (parameters x.scheme))) × (length amplitudes.old ≡ 4 * x.d) }
        ensures { Reader.Gives result (Reader.job_answer self.now.bytes.now) (Reader.job_sample self.now.bytes.now) }
    {
        let x = self.numbers;
        let file = self.bytes;
        let b = x.block_size() as usize;
        let d = x.numbers.d as usize;
        let header = 4 * checks::header_words(file);
        let table = header + 4 * (d * (1 + b) + 1);
        let two = SectionTwo {
            parts: &file[header..],
            d,
            b,
        };
        two.gather_blocks(blocks);
        two.gather_amplitudes(amplitudes);
        evaluate(x, blocks, amplitudes, &file[table..])
    }

    // The same, with rooms for them.
    fn look_up(&self) -> Result<Outcome, Refusal>
        ensures { Reader.Gives result (Reader.job_answer self.now.bytes.now) (Reader.job_sample self.now.bytes.now) }
    {
        let x = self.numbers;
        let mut blocks = room::<BLOCKS_ROOM>();
        let mut amplitudes = room::<AMPLITUDES_ROOM>();
        let blocks_size = 4 * (x.numbers.d * x.block_size()) as usize;
        let amplitudes_size = 4 * x.numbers.d as usize;
        self.look_up_with(
            &mut blocks[..blocks_size],
            &mut amplitudes[..amplitudes_size],
        )
    }
}

// What comes of a file, whatever its bytes are.
pub fn run(file: &[u8]) -> Result<Outcome, Refusal>
    ensures { Reader.Gives result (Reader.job_answer file.now) (Reader.job_sample file.now) }
{
    let job = JobFile::read(file)?;
    job.look_up()
}
