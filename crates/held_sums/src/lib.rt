// Sums of products of polynomials modulo X^N + 1 and modulo a prime. They are held in the transform domain, so that one way back serves
// for many rows.
#![tactic(auto)]

ghost use Rattle.std.specs.Prelude.{◌≡◌, suc, ◌*◌, ◌^◌, ◌≤◌, length};
ghost use Rattle.torus.specs.Sum.{chunk};
ghost use Rattle.torus.specs.Bytes.{words};
ghost use Rattle.ring.specs.Polynomial.{coefficients, log};
ghost use Rattle.butterflies.specs.Butterflies.{Below};
ghost use Rattle.ntt.specs.Transforms.{Leaves};
ghost use Rattle.residues.specs.Residues.{residues, Within};
ghost use Rattle.held_sums.specs.Sums.{More, MoreRow, Columns, Places, OneMore};

use ntt::Plan;
use twiddles::Prime;

// The domain of transforms modulo a prime, which is so large that words have residues below 4·p.
#[derive(Clone, Copy)]
struct Domain<'a> {
    plan: Plan<'a>,
    ghost big: { 4294967296 ≤ 6 * plan.tables.p },
}

// The leaves of the polynomial whose words are s.
fn transform(f: &mut [u32], s: &[u8], domain: &Domain)
    requires { (let t = domain.now.plan.tables in (length f.old ≡ 2 ^ t.n) × (length s.now ≡ 4 * 2 ^ t.n)) }
    ensures { (let t = domain.now.plan.tables in
        Leaves t.p t.n t.roots.now (residues t.p (coefficients (words s.now))) f.new × Below t.p f.new) }
{
    residues::lift_words(f, s, domain.plan.tables.p);
    ntt::forward(f, &domain.plan.tables);
}

// To the sums, the leaves f times those of the words of b, which are made in g.
fn add_column(sums: &mut [u64], g: &mut [u32], f: &[u32], b: &[u8], domain: &Domain)
    requires { (let t = domain.now.plan.tables in Within 15 sums.old × Below t.p f.now × (length sums.old ≡ 2 ^ t.n)
        × (length g.old ≡ 2 ^ t.n) × (length f.now ≡ 2 ^ t.n) × (length b.now ≡ 4 * 2 ^ t.n)) }
    ensures { (let t = domain.now.plan.tables in More t.p t.n t.roots.now f.now (words b.now) sums.old sums.new) }
{
    transform(g, b, domain);
    residues::accumulate(sums, f, g);
}

// The same for each of the k + 1 polynomials of row, one after another in sums.
fn add_columns(sums: &mut [u64], g: &mut [u32], f: &[u32], row: &[u8], k: usize, domain: &Domain)
    requires { (let t = domain.now.plan.tables in Within 15 sums.old × Below t.p f.now × (length sums.old ≡ suc k * 2 ^ t.n)
        × (length g.old ≡ 2 ^ t.n) × (length f.now ≡ 2 ^ t.n) × (length row.now ≡ 4 * (suc k * 2 ^ t.n))) }
    ensures { (let t = domain.now.plan.tables in
        Columns t.n k (λ d. More t.p t.n t.roots.now f.now (chunk (2 ^ t.n) d (words row.now))) sums.old sums.new) }
{
    let size = f.len();
    for c in 0..k + 1 {
        let at = c * size;
        let from = 4 * at;
        add_column(
            &mut sums[at..at + size],
            g,
            f,
            &row[from..from + 4 * size],
            domain,
        );
    }
}

// To each of the k + 1 sums, small times the same polynomial of row. f and g are room.
fn add_row_in(
    sums: &mut [u64],
    f: &mut [u32],
    g: &mut [u32],
    small: &[u8],
    row: &[u8],
    k: usize,
    domain: &Domain,
)
    requires { (let t = domain.now.plan.tables in Within 15 sums.old × (length sums.old ≡ suc k * 2 ^ t.n)
        × (length f.old ≡ 2 ^ t.n) × (length g.old ≡ 2 ^ t.n) × (length small.now ≡ 4 * 2 ^ t.n) × (length row.now ≡ 4 * (suc k * 2 ^ t.n))) }
    ensures { (let t = domain.now.plan.tables in
        Columns t.n k (λ d. MoreRow t.p t.n t.roots.now (words small.now) (chunk (2 ^ t.n) d (words row.now))) sums.old sums.new) }
{
    transform(f, small, domain);
    add_columns(sums, g, f, row, k, domain);
}

// One row more: to each of the k + 1 sums that are held modulo a prime, small times the same polynomial of row. There is room for
// sixteen rows. sums, k and n go side by side, here and in what calls this: a struct that lends the sums would have each function say
// besides that it hands the same reference back.
pub fn add_row(sums: &mut [u64], small: &[u8], row: &[u8], k: usize, n: usize, prime: Prime)
    requires { Places n k sums.old × Within 15 sums.old × (length small.now ≡ 4 * n) × (length row.now ≡ 4 * (suc k * n)) }
    ensures { OneMore prime (log n) n k (words small.now) (words row.now) sums.old sums.new }
{
    let domain = Domain {
        plan: twiddles::plan(prime, ring::exponent(n)),
    };
    let mut f = [0u32; 1024];
    let mut g = [0u32; 1024];
    add_row_in(sums, &mut f[0..n], &mut g[0..n], small, row, k, &domain);
}
