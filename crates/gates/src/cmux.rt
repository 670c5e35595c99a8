// The CMux ("gate") of two samples.
ghost use Rattle.std.specs.Prelude.{◌≡◌, ◌*◌, ◌≤◌, length};
ghost use Rattle.torus.specs.Bytes.{words};
ghost use Rattle.trgsw.specs.Parameters.{most_masks, sample_size};
ghost use Rattle.trgsw.specs.External as External;
ghost use Rattle.gates.specs.Calls as Calls;
ghost use Rattle.gates.specs.Inner as Inner;

use crate::external::add_external;
use answers::{Answer, Checked, Ledger};
use trgsw::{Bounded, Parameters, Scheme};

// Rooms for a sample of a small degree, and of each degree.
const SMALL_ROOM: usize = 4 * (trgsw::MOST_MASKS + 1) * 64;

const ROOM: usize = 4 * trgsw::LARGEST_SAMPLE;

// What a CMux reads: what it is told, the declared amplitudes of the block and of both samples, and the slices that are lent to it.
#[derive(Clone, Copy)]
pub struct Lent<'a> {
    pub scheme: Scheme,
    pub amplitude: u64,
    pub amplitude0: u64,
    pub amplitude1: u64,
    pub block: &'a [u8],
    pub sample0: &'a [u8],
    pub sample1: &'a [u8],
}

// sample0 in out gives way to the CMux, and sample1 in x to the difference of the two. `Fits` stays a clause, here and below: it speaks of
// slices that are written, and of any parameter set.
pub fn cmux_in_place(out: &mut [u8], x: &mut [u8], block: &[u8], p: Parameters)
    requires { Inner.Fits p (length block.now) (length x.old) (length out.old) }
    ensures { (words out.new ≡ External.cmux_sample p (words block.now) (words out.old) (words x.old))
        × (words x.new ≡ External.difference (sample_size p) (words x.old) (words out.old)) }
{
    torus::sub_words(x, out);
    add_external(out, block, x, p);
}

// The CMux of sample0 and sample1; the difference is made in room, which has the size of a sample.
fn cmux_in(out: &mut [u8], room: &mut [u8], lent: &Lent, p: Parameters)
    requires { Inner.Fits p (length lent.now.block.now) (length room.old) (length out.old)
        × (length lent.now.sample0.now ≡ 4 * sample_size p) × (length lent.now.sample1.now ≡ 4 * sample_size p) }
    ensures { words out.new ≡ External.cmux_sample p
        (words lent.now.block.now) (words lent.now.sample0.now) (words lent.now.sample1.now) }
{
    torus::copy_words(out, lent.sample0);
    torus::copy_words(room, lent.sample1);
    cmux_in_place(out, room, lent.block, p);
}

// The same with room of its own, for as many masks as a call has. Room is cleared before it is used, so that small degrees have a small one.
// A const parameter for its size is no plainer: for these two lines it takes a second function, which asks that the size be below 2^63.
fn cmux_roomed(out: &mut [u8], lent: &Lent, p: Parameters)
    requires { Inner.Fits p (length lent.now.block.now) (length lent.now.sample0.now) (length out.old)
        × (length lent.now.sample1.now ≡ 4 * sample_size p) × (p.k ≤ most_masks) }
    ensures { words out.new ≡ External.cmux_sample p
        (words lent.now.block.now) (words lent.now.sample0.now) (words lent.now.sample1.now) }
{
    let size = out.len();
    if p.N <= 64 {
        let mut room = [0u8; SMALL_ROOM];
        cmux_in(out, &mut room[0..size], lent, p);
    } else {
        let mut room = [0u8; ROOM];
        cmux_in(out, &mut room[0..size], lent, p);
    }
}

// 5: the lengths of the slices.
fn check_lengths(lent: &Lent, out: &[u8], p: Bounded) -> Checked
    ensures { result ≡ Inner.cmux_lengths p.set
        lent.now.block.now lent.now.sample0.now lent.now.sample1.now out.now }
{
    let own = p.sample_size() as u64;
    answers::exact(lent.block.len(), p.block_size() as u64)?;
    answers::exact(lent.sample0.len(), own)?;
    answers::exact(lent.sample1.len(), own)?;
    answers::exact(out.len(), own)
}

// What cmux answers.
#[tactic(auto, unfolding(crate::specs::Calls::cmux))]
#[inline]
pub fn cmux_answer(lent: &Lent, out: &[u8]) -> Answer
    ensures { result ≡ Calls.cmux (Calls.cmux_of lent.now out.now) }
{
    let p = lent.scheme.bounded()?;
    check_lengths(lent, out, p)?;
    answers::amplitude(lent.amplitude)?;
    answers::amplitude(lent.amplitude0)?;
    answers::amplitude(lent.amplitude1)?;
    let bound = lent.amplitude0.max(lent.amplitude1) + p.charge(lent.amplitude);
    Ok(Ledger { bound, gates: 1 })
}

// The CMux of two samples, each within its declared amplitude: the one that the block's bit names.
#[tactic(auto, unfolding(crate::specs::Calls::cmux_out, answers::specs::Answers::after))]
#[inline]
pub fn cmux(lent: &Lent, out: &mut [u8]) -> Answer
    ensures { (result ≡ Calls.cmux (Calls.cmux_of lent.now out.old))
        × (out.new ≡ Calls.cmux_out (Calls.cmux_of lent.now out.old)) }
{
    let ledger = cmux_answer(lent, out)?;
    cmux_roomed(out, lent, lent.scheme.parameter_set());
    Ok(ledger)
}
