// Reads a job file from standard input and prints its answer, and the sample where it is accepted. All but the calls that read and write
// is in the library `jobfile`. No contract can say what standard input holds: what is read there is proved of every source whose bytes are
// known.
#![tactic(auto)]

ghost use Rattle.std.specs.Prelude.{None, ⊤};

use jobfile::streams::{Sink, Source};

#[derive(Drop)]
struct StandardInput {}

impl Source for StandardInput {
    ghost left = { λ _. None };

    fn fill(&mut self, buffer: &mut [u8]) -> usize {
        io::read_full(0, buffer)
    }
}

#[derive(Drop)]
struct StandardOutput {}

impl Sink for StandardOutput {
    ghost wrote = { λ _ _ _ _. ⊤ };

    fn write(&mut self, text: &[u8]) -> bool {
        io::write_all(1, text)
    }
}

// A program of `io` has no exit status of its own, so text that is lost is told on standard error.
fn main() {
    let mut file = [0u8; 65536];
    let mut input = StandardInput {};
    let mut output = StandardOutput {};
    if !jobfile::streams::run(&mut input, &mut output, &mut file) {
        io::write_all(2, b"ratejob: the output could not be written\n");
    }
}
