// Number-theoretic transforms modulo a prime p below 2^30, with lent tables of twiddle factors.
#![tactic(auto)]

ghost use Rattle.std.specs.Prelude.{◌≡◌, ◌+◌, ◌*◌, ◌-◌, ◌<◌, ◌^◌, suc, length};
ghost use Rattle.butterflies.specs.Butterflies.{Below, WayLevel};
ghost use Rattle.ntt.specs.Transforms.{Table, Twiddles, Down, Up};

use butterflies::{CooleyTukey, GentlemanSande, Way};
use levels::Factors;

// Tables of factors and of their quotients, for 2^n coefficients modulo p.
#[derive(Clone, Copy)]
pub struct Tables<'a> {
    pub p: u32,
    pub n: usize,
    pub roots: &'a [u32],
    pub quotients: &'a [u32],
    pub ghost table: { Table p n roots.now quotients.now },
}

impl<'a> Tables<'a> {
    // The factors of level d.
    fn level(&self, d: usize) -> Factors<'a>
        requires { d < self.now.n }
        ensures { (result.p ≡ self.now.p) × (result.m ≡ 2 ^ d) × (result.roots.now ≡ self.now.roots.now) }
    {
        Factors {
            p: self.p,
            m: 1 << d,
            roots: self.roots,
            quotients: self.quotients,
        }
    }
}

// Tables whose factors are roots that follow the rule of the tree, so that they serve both ways. That fact carries numbers (`Same`), and so
// is truncated here.
#[derive(Clone, Copy)]
pub struct Plan<'a> {
    pub tables: Tables<'a>,
    pub ghost twiddles: { ∥ Twiddles tables.p tables.n tables.roots.now tables.quotients.now ∥₁ },
}

// Level d, of 2^d nodes.
fn level<W: Way>(a: &mut [u32], d: usize, tables: &Tables)
    requires { (let t = tables.now in (d < t.n) × (length a.old ≡ 2 ^ t.n) × Below (W.top t.p) a.old) }
    ensures { (let t = tables.now in
        WayLevel W.low W.high W.turn t.p (2 ^ d) (2 ^ (t.n - suc d)) t.roots.now a.old a.new × Below (W.top t.p) a.new) }
{
    let h = 1 << (tables.n - 1 - d);
    levels::level::<W>(a, h, &tables.level(d));
}

// ---- the way down

// All levels down.
fn all_levels(a: &mut [u32], tables: &Tables)
    requires { (let t = tables.now in (length a.old ≡ 2 ^ t.n) × Below (4 * t.p) a.old) }
    ensures { (let t = tables.now in Down t.p t.n t.roots.now t.n a.old a.new × Below (4 * t.p) a.new) }
{
    for d in 0..tables.n {
        level::<CooleyTukey>(a, d, tables);
    }
}

// The forward transform: a holds 2^n coefficients below 4·p, and then its leaves, below p.
pub fn forward(a: &mut [u32], tables: &Tables)
    requires { (let t = tables.now in (length a.old ≡ 2 ^ t.n) × Below (4 * t.p) a.old) }
    ensures { (let t = tables.now in Down t.p t.n t.roots.now t.n a.old a.new × Below t.p a.new) }
{
    all_levels(a, tables);
    butterflies::reduce(a, tables.p);
}

// ---- the way up

// The inverse transform, but for the factor 2^n: a holds leaves, and then the coefficients times 2^n.
pub fn backward(a: &mut [u32], plan: &Plan)
    requires { (let t = plan.now.tables in (length a.old ≡ 2 ^ t.n) × Below (t.p + t.p) a.old) }
    ensures { (let t = plan.now.tables in Up t.p t.n t.roots.now 0 a.old a.new × Below (t.p + t.p) a.new) }
{
    for d in (0..plan.tables.n).rev() {
        level::<GentlemanSande>(a, d, &plan.tables);
    }
}
