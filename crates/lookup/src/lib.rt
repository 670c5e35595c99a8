// Lookups: the entry of a table, public or hidden, that encrypted selector bits name, as a sample, without the key, in either packing.
// Samples have k masks.
#![tactic(auto)]

pub mod checks;
pub mod rotation;
pub mod tree;

ghost use Rattle.std.specs.Prelude.{◌≡◌};
ghost use Rattle.lookup.specs.Job.{job_of};
ghost use Rattle.lookup.specs.Calls as Calls;

use answers::Answer;
use tables::{Lawful, Numbers};

// What a lookup reads: its numbers, and what is lent to it: d selector blocks and an amplitude of each, a table, and the amplitudes of its
// samples. A public table declares none. Amplitudes stand in slices of their own, since C callers lend them so.
#[derive(Clone, Copy)]
pub struct Lent<'a> {
    pub numbers: Numbers,
    pub blocks: &'a [u8],
    pub amplitudes: &'a [u8],
    pub table: &'a [u8],
    pub entry_amplitudes: &'a [u8],
}

// What lookup answers.
pub fn lookup_answer(lent: &Lent, sample: &[u8], work: &[u8]) -> Answer
    ensures { result ≡ Calls.lookup (job_of lent.now sample.now work.now) }
{
    checks::check(lent, sample, work)?;
    let x = Lawful {
        numbers: lent.numbers,
    };
    let begun = tables::entries::largest_amplitude(lent.entry_amplitudes, x);
    let charged = tree::charges(lent, lent.numbers.d as usize);
    answers::noise(lent.numbers.M, begun + charged, x.gate_count())
}

// The entry that the bits of d selector blocks name, each block within its declared amplitude; there are 2^d entries of s classes. The
// samples of a hidden table are each within a declared amplitude too; a public one declares none.
// Answers with the noise bound and the gates.
pub fn lookup(lent: &Lent, sample: &mut [u8], work: &mut [u8]) -> Answer
    ensures { (let j = job_of lent.now sample.old work.old in
        (result ≡ Calls.lookup j) × (sample.new ≡ Calls.lookup_sample j) × (work.new ≡ Calls.lookup_work j)) }
{
    match lookup_answer(lent, sample, work) {
        Ok(_) => Ok(rotation::evaluate(sample, work, lent)),
        refused => refused,
    }
}
