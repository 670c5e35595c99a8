// The external product of a block with a sample.
ghost use Rattle.std.specs.Prelude.{◌≡◌, suc, length};
ghost use Rattle.torus.specs.Word as W;
ghost use Rattle.torus.specs.Bytes.{words};
ghost use Rattle.trlwe.specs.Sample.{part, polynomials};
ghost use Rattle.trgsw.specs.External as External;
ghost use Rattle.gates.specs.Calls as Calls;
ghost use Rattle.gates.specs.Inner as Inner;

use answers::{Answer, Checked, Ledger};
use gadget::Gadget;
use row_terms::Terms;
use trgsw::{Bounded, Parameters, Scheme};

// What an external product reads: what it is told, the declared amplitudes of the block and of the sample, and the slices that are lent to it.
#[derive(Clone, Copy)]
pub struct Lent<'a> {
    pub scheme: Scheme,
    pub amplitude: u64,
    pub sample_amplitude: u64,
    pub block: &'a [u8],
    pub sample: &'a [u8],
}

// To out, the external product of the block with x. `Fits` stays a clause, as in the CMux: it speaks of slices that are written.
// Inlined, as the calls of the CMux are: at the smallest degrees handing a struct on takes as long as a part of the product.
#[inline]
pub fn add_external(out: &mut [u8], block: &[u8], x: &[u8], p: Parameters)
    requires { Inner.Fits p (length block.now) (length x.now) (length out.old) }
    ensures { words out.new ≡ polynomials p.N (suc p.k) (λ c i. W.add (part p.N (words out.old) c i)
        (External.external p (words block.now) (words x.now) c i)) }
{
    let gadget = Gadget { g: p.g, l: p.L };
    let terms = Terms {
        block,
        x,
        k: p.k,
        n: p.N,
        gadget,
    };
    row_products::add_rows(out, &terms);
}

// 5: the lengths of the slices.
fn check_lengths(lent: &Lent, out: &[u8], p: Bounded) -> Checked
    ensures { result ≡ Inner.product_lengths p.set lent.now.block.now lent.now.sample.now out.now }
{
    let own = p.sample_size() as u64;
    answers::exact(lent.block.len(), p.block_size() as u64)?;
    answers::exact(lent.sample.len(), own)?;
    answers::exact(out.len(), own)
}

// What external_product answers.
#[tactic(auto, unfolding(crate::specs::Calls::external_product))]
pub fn external_product_answer(lent: &Lent, out: &[u8]) -> Answer
    ensures { result ≡ Calls.external_product (Calls.product_of lent.now out.now) }
{
    let p = lent.scheme.bounded()?;
    check_lengths(lent, out, p)?;
    answers::amplitude(lent.amplitude)?;
    answers::amplitude(lent.sample_amplitude)?;
    let bound = p.charge(lent.amplitude) + lent.sample_amplitude;
    Ok(Ledger { bound, gates: 0 })
}

// The external product of a block with a sample, each within its declared amplitude.
#[tactic(auto, unfolding(crate::specs::Calls::external_product_out, answers::specs::Answers::after))]
pub fn external_product(lent: &Lent, out: &mut [u8]) -> Answer
    ensures { (result ≡ Calls.external_product (Calls.product_of lent.now out.old))
        × (out.new ≡ Calls.external_product_out (Calls.product_of lent.now out.old)) }
{
    let ledger = external_product_answer(lent, out)?;
    torus::clear_words(out);
    add_external(out, lent.block, lent.sample, lent.scheme.parameter_set());
    Ok(ledger)
}
