// The program `ratejob` over the streams that it is lent. It is proved for every source and every sink; of those whose bytes are known, that
// what it prints is the output for all that it is given to read. Of standard input and output no contract can say what they hold.
ghost use Rattle.std.specs.Prelude.{◌≡◌, Bool, Option, Some, List, ℕ, ◌≤◌, length};
ghost use Rattle.jobfile.specs.Layout.{largest_file};
ghost use Rattle.jobfile.specs.Streams as Streams;

use crate::layout::{TEXT_ROOM, room};
use crate::text;

// Where bytes come from. What it has left is known of some sources alone.
pub trait Source {
    ghost left: { Self → Option (List ℕ) };

    // Reads until the buffer is full or the source ends, and tells how many bytes stand at the buffer's front.
    fn fill(&mut self, buffer: &mut [u8]) -> usize
        ensures within { result ≤ length buffer.new }
        ensures taken { Streams.Fills (left self.old) (left self.new) result buffer.new };
}

// Where text goes. A sink says itself what a write does, by the sink before, the text, what is told, and the sink behind.
pub trait Sink {
    ghost wrote: { Self → List ℕ → Bool → Self → Type 0 };

    // Writes the whole text, or tells that some of it may be lost.
    fn write(&mut self, text: &[u8]) -> bool
        ensures { wrote self.old text.now result self.new };
}

// Whether the source has anything left.
fn goes_on<I: Source>(source: &mut I) -> bool
    ensures { Streams.GoesOn (I.left source.old) result }
{
    let mut one = [0u8; 1];
    let n = source.fill(&mut one);
    0 < n
}

// The text for what the source has left, in a room for it. The source is read into the buffer; where it fills that, one more read tells
// whether it goes on.
fn answer<I: Source>(source: &mut I, room: &mut [u8], file: &mut [u8]) -> usize
    requires { (TEXT_ROOM ≡ length room.old) × (length file.old ≡ largest_file) }
    ensures within { result ≤ length room.new }
    ensures told { Streams.Answers (I.left source.old) room.new result }
{
    let n = source.fill(file);
    if n == file.len() {
        if goes_on(source) {
            return text::write_output_of_longer(room);
        }
    }
    text::write_output(room, &file[..n])
}

// The whole program, with a buffer for the largest file: one write, of the output for all that the source has left.
pub fn run<I: Source, O: Sink>(source: &mut I, sink: &mut O, file: &mut [u8]) -> bool
    requires { length file.old ≡ largest_file }
    ensures { (text : List ℕ) × Streams.IsOutput (I.left source.old) text × O.wrote sink.old text result sink.new }
{
    let mut room = room::<TEXT_ROOM>();
    let size = answer(source, &mut room, file);
    sink.write(&room[0..size])
}

// Bytes in memory are a source of which everything is known.
impl Source for &[u8] {
    ghost left = { λ s. Some s.now };

    fn fill(&mut self, buffer: &mut [u8]) -> usize {
        let bytes: &[u8] = *self;
        let n = bytes.len().min(buffer.len());
        buffer[..n].copy_from_slice(&bytes[..n]);
        *self = &bytes[n..];
        n
    }
}
