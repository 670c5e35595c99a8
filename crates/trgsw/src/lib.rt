// TRGSW blocks ("selector blocks"): the parameter set, the sizes that it gives, and the charge of a CMux. The definitions are for k masks;
// calls are told less of a parameter set, and what they are not told is shut here.
#![tactic(auto)]

ghost use Rattle.std.specs.Prelude.{◌≡◌, Err, MatchResult, ◌^◌, ◌≤◌};
ghost use Rattle.answers.specs.Checks.{passed};
ghost use Rattle.trgsw.specs.Parameters.{scheme_of, Sized, LawfulScheme, unweighted_refusal, scheme_refusal, parameters, key_size, sample_size, row_count, block_size};
ghost use Rattle.trgsw.specs.External as External;

use answers::{Checked, Refusal};
use gadget::Gadget;

// A parameter set: degree N, k masks, a gadget of L digits in base 2^g, and keys of up to W ones.
#[derive(Clone, Copy)]
pub struct Parameters {
    pub N: usize,
    pub k: usize,
    pub g: u32,
    pub L: u32,
    pub W: u64,
}

// A parameter set within the code's limits, so that 64 bits hold its sizes and charges.
#[derive(Clone, Copy)]
pub struct Bounded {
    pub set: Parameters,
    pub ghost sized: { Sized set },
}

// What a call is told of its parameter set, whatever the numbers are: degree N, a gadget of L digits in base 2^g, and the declared weight W,
// the most ones of a key.
#[derive(Clone, Copy)]
pub struct Scheme {
    pub N: u64,
    pub g: u64,
    pub L: u64,
    pub W: u64,
}

// The most masks of a call. Rooms for samples are made for them.
pub const MOST_MASKS: usize = 1;

// The words of the largest sample of a call.
pub const LARGEST_SAMPLE: usize = (MOST_MASKS + 1) * 1024;

// 1 and 2, of a call that is told no weight.
fn check_unweighted(n: u64, g: u64, l: u64) -> Checked
    ensures { result ≡ unweighted_refusal n g l }
{
    answers::degree(n)?;
    answers::gadget(g, l)
}

// The parameter set of a call that is told no weight, where its numbers pass refusals 1 and 2.
pub fn unweighted(n: u64, g: u64, l: u64) -> Result<Bounded, Refusal>
    ensures { MatchResult result
        (λ p. (unweighted_refusal n g l ≡ passed) × (p.set ≡ parameters (scheme_of n g l)))
        (λ refusal. unweighted_refusal n g l ≡ Err refusal) }
{
    Scheme::new(n, g, l).bounded()
}

impl Scheme {
    // Where no weight is declared: that of every key.
    pub fn new(n: u64, g: u64, l: u64) -> Scheme
        ensures { result ≡ scheme_of n g l }
    {
        Scheme {
            N: n,
            g,
            L: l,
            W: n,
        }
    }

    // 1, 2 and 12: what a call is told of its parameter set.
    pub fn check(self) -> Checked
        ensures { result ≡ scheme_refusal self }
    {
        check_unweighted(self.N, self.g, self.L)?;
        answers::weight(self.N, self.W)
    }

    // The parameter set that a call is told, with one mask.
    pub fn parameter_set(self) -> Parameters
        requires { LawfulScheme self }
        ensures { result ≡ parameters self }
    {
        let degree = self.N as usize;
        let bits = self.g as u32;
        let digits = self.L as u32;
        Parameters {
            N: degree,
            k: 1,
            g: bits,
            L: digits,
            W: self.W,
        }
    }

    // It, where what is told passes refusals 1, 2 and 12.
    pub fn bounded(self) -> Result<Bounded, Refusal>
        ensures { MatchResult result
            (λ p. (scheme_refusal self ≡ passed) × (p.set ≡ parameters self))
            (λ refusal. scheme_refusal self ≡ Err refusal) }
    {
        self.check()?;
        let set = self.parameter_set();
        Ok(Bounded { set })
    }
}

impl Bounded {
    // The words of a key.
    pub fn key_size(self) -> usize
        ensures { (result ≡ key_size self.set) × (result ≤ 4096) }
    {
        self.set.k * self.set.N
    }

    // The words of a sample.
    pub fn sample_size(self) -> usize
        ensures { (result ≡ sample_size self.set) × (result ≤ 5120) }
    {
        (self.set.k + 1) * self.set.N
    }

    // The rows of a block.
    pub fn row_count(self) -> usize
        ensures { (result ≡ row_count self.set) × (result ≤ 160) }
    {
        (self.set.k + 1) * self.set.L as usize
    }

    // The words of a block: as many samples as it has rows.
    pub fn block_size(self) -> usize
        ensures { (result ≡ block_size self.set) × (result ≤ 819200) }
    {
        self.row_count() * self.sample_size()
    }

    // A CMux's charge: what it adds to the noise, with a block within a.
    pub fn charge(self, a: u64) -> u64
        requires { a ≤ 2 ^ 31 }
        ensures { result ≡ External.charge self.set a }
    {
        let p = self.set;
        let gadget = Gadget { g: p.g, l: p.L };
        self.row_count() as u64 * p.N as u64 * gadget::half(p.g) as u64 * a
            + (1 + p.W) * gadget.precision() as u64
    }
}
