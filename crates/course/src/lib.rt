// The functions that the exercises of the course ask for. Each says its lesson and number.
#![tactic(auto)]

ghost use Rattle.std.specs.Prelude.{◌≡◌, ◌-◌, ◌^◌, ◌≤◌};
ghost use Rattle.gadget.specs.Digits as Digits;
ghost use Rattle.course.specs.Definitions as Course;

use answers::Answer;
use gadget::Gadget;

// Exercise 1.4: the word whose centred reading is -w.
pub fn negate(w: u32) -> u32
    ensures { result ≡ Course.negative w }
{
    0u32.wrapping_sub(w)
}

// Exercise 2.7: w rounded to the nearest multiple of the last step, ties up.
pub fn round_word(w: u32, g: u32, l: u32) -> u32
    requires { Digits.Lawful g l }
    ensures { result ≡ Digits.rounded g l w }
{
    let t = torus::add(w, Gadget { g, l }.precision());
    t - t % gadget::step(g, l)
}

// Exercise 4.6: the CMuxes of a tree of d levels. A level more has a CMux more than twice as many.
pub fn tree_gates(d: u64) -> u64
    requires { d ≤ 63 }
    ensures { result ≡ 2 ^ d - 1 }
{
    let mut gates = 0;
    for _level in 0..d {
        gates = 2 * gates + 1;
    }
    gates
}

// Exercise 6.4: what a lookup of d selectors answers, if each has the charge c. It takes every number.
#[tactic(auto, unfolding(crate::specs::Definitions::equal_charges))]
pub fn equal_charges(m: u64, d: u64, c: u32) -> Answer
    ensures { result ≡ Course.equal_charges m d c }
{
    answers::class_number(m)?;
    answers::depth(10, d)?;
    answers::noise(m, d * u64::from(c), tree_gates(d))
}

// Exercise 6.7: coefficient p of a polynomial of degree n is negated. It takes every number and every slice.
#[tactic(auto, unfolding(crate::specs::Definitions::negate_coefficient, crate::specs::Definitions::negate_coefficient_slice, answers::specs::Answers::after))]
pub fn negate_coefficient(n: u64, p: u64, s: &mut [u8]) -> Answer
    ensures { (result ≡ Course.negate_coefficient n p s.old)
        × (s.new ≡ Course.negate_coefficient_slice n p s.old) }
{
    answers::degree(n)?;
    answers::position(n, p)?;
    answers::exact(s.len(), n)?;
    let i = p as usize;
    let w = torus::word_at(s, i);
    torus::put_word(s, i, negate(w));
    answers::accepted()
}
