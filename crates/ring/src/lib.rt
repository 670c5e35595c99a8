// Degrees of polynomials modulo X^n + 1, their product by its formula, and their rotation.
#![tactic(auto)]

ghost use Rattle.std.specs.Prelude.{◌≡◌, ℕ, ◌+◌, ◌-◌, ◌*◌, ◌/◌, ◌%◌, ◌^◌, ◌≤◌, ◌<◌, length};
ghost use Rattle.torus.specs.Sum.{sum, tabulate};
ghost use Rattle.torus.specs.Word.{magnitude};
ghost use Rattle.torus.specs.Bytes.{words};
ghost use Rattle.ring.specs.Polynomial.{Degree, log, is_degree, coefficients, product, add_product, rotated};

// Whether n is a degree: a power of two has exactly one bit set.
pub fn is_degree(n: u64) -> bool
    ensures { result ≡ is_degree n }
{
    n.count_ones() == 1 && n <= 1024
}

// The exponent of a degree: as many zeros stand below its one bit. That n is a degree is a clause where no struct of factors or rows
// carries it.
pub fn exponent(n: usize) -> usize
    requires { Degree n }
    ensures { (result ≡ log n) × (n ≡ 2 ^ result) × (result ≤ 10) }
{
    n.trailing_zeros() as usize
}

// The factors of a product: two polynomials of one degree, one of them small. Digits are small, and so are the 0s and 1s of a key.
#[derive(Clone, Copy)]
pub struct Pair<'a> {
    pub small: &'a [u8],
    pub row: &'a [u8],
    pub n: usize,
    pub ghost degree: { Degree n },
    pub ghost small_length: { length small.now ≡ 4 * n },
    pub ghost row_length: { length row.now ≡ 4 * n },
    pub ghost small_words: { (i : ℕ) → i < n → magnitude (coefficients (words small.now) i) ≤ 2 ^ 15 },
}

// The sum of `count` terms of a product: words of small from place `from` up, times words of row from place `top` down.
fn sum_terms(small: &[u8], row: &[u8], from: usize, top: usize, count: usize) -> u32
    requires { (4 * (from + count) ≤ length small.now) × (count ≤ top + 1) × (4 * (top + 1) ≤ length row.now) }
    ensures { result ≡ sum count (λ i. coefficients (words small.now) (from + i)
        * coefficients (words row.now) (top - i)) % 2 ^ 32 }
{
    let mut total = 0;
    for i in 0..count {
        let term = torus::mul(
            torus::word_at(small, from + i),
            torus::word_at(row, top - i),
        );
        total = torus::add(total, term);
    }
    total
}

// Coefficient k of the product: the terms that stay below X^n, less those that pass it.
fn coefficient(small: &[u8], row: &[u8], n: usize, k: usize) -> u32
    requires { (k < n) × (length small.now ≡ 4 * n) × (length row.now ≡ 4 * n) }
    ensures { result ≡ product n (coefficients (words small.now)) (coefficients (words row.now)) k }
{
    let inside = sum_terms(small, row, 0, k, k + 1);
    let passed = sum_terms(small, row, k + 1, n - 1, n - (k + 1));
    torus::sub(inside, passed)
}

// To out, the product of small and row, coefficient by coefficient. n stands beside the slices for speed: a caller that has tested how small
// it is gets loops of that size, and a length that is divided tells the compiler nothing.
pub fn add_by_coefficients(out: &mut [u8], small: &[u8], row: &[u8], n: usize)
    requires { (length out.old ≡ 4 * n) × (length small.now ≡ 4 * n) × (length row.now ≡ 4 * n) }
    ensures { words out.new
        ≡ add_product n (words out.old) (words small.now) (words row.now) }
{
    for k in 0..n {
        let w = torus::word_at(out, k);
        torus::put_word(out, k, torus::add(w, coefficient(small, row, n, k)));
    }
}

// The word of X^(-r)·p at place t, where p has n words.
fn rotated_word(p: &[u8], r: usize, t: usize) -> u32
    requires { (r ≤ length p.now / 4) × (t < length p.now / 4) }
    ensures { result ≡ rotated (length p.now / 4) r (coefficients (words p.now)) t }
{
    let n = p.len() / 4;
    let from = t + r;
    if from < n {
        torus::word_at(p, from)
    } else {
        torus::sub(0, torus::word_at(p, from - n))
    }
}

// The polynomial X^(-r)·p: every term comes down by r places, and one that passes the end returns with its sign changed.
pub fn rotate(out: &mut [u8], p: &[u8], r: usize)
    requires { (length p.now ≡ length out.old) × (r ≤ length out.old / 4) }
    ensures { words out.new ≡ tabulate (length out.old / 4) (rotated (length out.old / 4) r (coefficients (words p.now))) }
{
    for t in 0..p.len() / 4 {
        torus::put_word(out, t, rotated_word(p, r, t));
    }
}
