// The way back from sums that are held in the transform domain modulo a prime.
#![tactic(auto)]

ghost use Rattle.std.specs.Prelude.{◌≡◌, suc, ◌*◌, ◌^◌, length};
ghost use Rattle.torus.specs.Sum.{chunk};
ghost use Rattle.ring.specs.Polynomial.{log};
ghost use Rattle.butterflies.specs.Same.{Same};
ghost use Rattle.butterflies.specs.Butterflies.{Below};
ghost use Rattle.twiddles.specs.Primes.{modulus};
ghost use Rattle.held_sums.specs.Sums.{Back, Columns, Places, ReadBack};

use butterflies::Factor;
use ntt::Plan;
use twiddles::Prime;

// The polynomial of which sums has the leaves. scale is the inverse of 2^n.
fn read_column(a: &mut [u32], sums: &[u64], plan: &Plan, scale: Factor)
    requires { (let t = plan.now.tables in (scale.p ≡ t.p) × Same t.p (2 ^ t.n * scale.w) 1 × (length a.old ≡ 2 ^ t.n) × (length sums.now ≡ 2 ^ t.n)) }
    ensures { (let t = plan.now.tables in Back t.p t.n t.roots.now sums.now a.new) }
{
    residues::reduce_sums(a, sums, plan.tables.p);
    ntt::backward(a, plan);
    residues::scale(a, scale);
}

// The same for each of k + 1 polynomials of `size` coefficients, one after another.
fn read_columns(a: &mut [u32], sums: &[u64], k: usize, size: usize, plan: &Plan, scale: Factor)
    requires { (let t = plan.now.tables in (scale.p ≡ t.p) × Same t.p (2 ^ t.n * scale.w) 1 × (size ≡ 2 ^ t.n) × (length a.old ≡ suc k * 2 ^ t.n)
        × (length sums.now ≡ suc k * 2 ^ t.n)) }
    ensures { (let t = plan.now.tables in Columns t.n k (λ d x. Back t.p t.n t.roots.now (chunk (2 ^ t.n) d sums.now)) a.old a.new) }
{
    for c in 0..k + 1 {
        let at = c * size;
        read_column(&mut a[at..at + size], &sums[at..at + size], plan, scale);
    }
}

// The way back: the k + 1 sums that are held modulo a prime.
pub fn read_sums(a: &mut [u32], sums: &[u64], k: usize, n: usize, prime: Prime)
    requires { Places n k sums.now × (length a.old ≡ suc k * n) }
    ensures { ReadBack prime (log n) n k sums.now a.new × Below (modulus prime) a.new }
{
    let e = ring::exponent(n);
    let plan = twiddles::plan(prime, e);
    let scale = twiddles::scale(prime, e);
    read_columns(a, sums, k, n, &plan, scale);
}
