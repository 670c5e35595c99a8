// The text that the program prints for a file. It is made at the front of a lent room.
ghost use Rattle.std.specs.Prelude.{◌≡◌, List, ◌++◌, ℕ, ◌/◌, ◌<◌, ◌≤◌, length, take, drop};
ghost use Rattle.torus.specs.Bytes.{words};
ghost use Rattle.report.specs.Report.{report};
ghost use Rattle.jobfile.specs.Layout.{largest_file};
ghost use Rattle.jobfile.specs.Output as Output;

use crate::layout::{SAMPLE_ROOM, TEXT_ROOM, room};
use answers::{Answer, Refusal};

// A text at the front of a room for the longest, and how many bytes it has: copied, as `Outcome` is.
#[derive(Clone, Copy)]
pub struct Text {
    pub size: usize,
    pub bytes: [u8; TEXT_ROOM],
}

// The text of an answer, and of a sample of which the first half is its mask. Rooms are lent as slices, so that their length stays a clause.
fn show(room: &mut [u8], answer: Answer, sample: &[u8]) -> usize
    requires { (length sample.now ≤ SAMPLE_ROOM) × (TEXT_ROOM ≡ length room.old) }
    ensures { Output.Shows room.new result (report answer (take (length sample.now / 8) (words sample.now))
        (drop (length sample.now / 8) (words sample.now))) }
{
    report::write_report(room, answer, sample, sample.len() / 8)
}

// The output for a file.
pub fn write_output(room: &mut [u8], file: &[u8]) -> usize
    requires { TEXT_ROOM ≡ length room.old }
    ensures { Output.Shows room.new result (Output.output file.now) }
{
    match crate::run(file) {
        Ok(outcome) => show(room, Ok(outcome.ledger), &outcome.sample[..outcome.size]),
        Err(refusal) => show(room, Err(refusal), &[]),
    }
}

// The output for each file that is too large, which need not be read to its end.
pub fn write_output_of_longer(room: &mut [u8]) -> usize
    requires { TEXT_ROOM ≡ length room.old }
    ensures { (file : List ℕ) → largest_file < length file → Output.Shows room.new result (Output.output file) }
{
    show(room, Err(Refusal::Length), &[])
}

// The output for an input that begins with the bytes of `file`, for a caller that lends no room. Where `more` is true, the input goes on
// behind them and is too large.
pub fn output(file: &[u8], more: bool) -> Text
    ensures { (result.size ≤ length result.bytes) × ((rest : List ℕ) → Output.Continues more file.now rest
        → Output.Shows result.bytes result.size (Output.output (file.now ++ rest))) }
{
    let mut bytes = room::<TEXT_ROOM>();
    if more {
        let size = write_output_of_longer(&mut bytes);
        return Text { size, bytes };
    }
    let size = write_output(&mut bytes, file);
    Text { size, bytes }
}
