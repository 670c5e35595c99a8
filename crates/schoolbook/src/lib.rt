// The product of a small polynomial with any other modulo X^n + 1, in lent bytes, by schoolbook.
#![tactic(auto)]

ghost use Rattle.std.specs.Prelude.{◌≡◌, ◌+◌, ◌*◌, ◌%◌, ◌^◌, ◌≤◌, length, get_or};
ghost use Rattle.torus.specs.Sum.{tabulate};
ghost use Rattle.torus.specs.Word as W;
ghost use Rattle.torus.specs.Bytes.{words};
ghost use Rattle.ring.specs.Polynomial.{coefficients, Agree, add_product};
ghost use Rattle.schoolbook.specs.Rows.{BothSigns, row_sum};

use ring::Pair;

// The table -row, row, in which X^i·row is the n words from place n - i on: no term needs a test for its sign.
fn both_signs(table: &mut [u32], pair: Pair<'_>)
    requires { length table.old ≡ pair.n + pair.n }
    ensures { BothSigns pair.entry.n (words pair.entry.row.now) pair.entry.n table.new }
{
    let n = pair.n;
    for i in 0..n {
        let w = torus::word_at(pair.row, i);
        table[i] = torus::sub(0, w);
        table[n + i] = w;
    }
}

// To each word of acc, d times the word of the row. Where words 0 are to be skipped, that is asked first: otherwise d is not tested.
fn add_scaled<const SPARSE: bool>(acc: &mut [u32], d: u32, row: &[u32])
    requires { length row.now ≡ length acc.old }
    ensures { Agree (length acc.old) (coefficients acc.new)
        (λ k. W.add (coefficients acc.old k) (W.mul d (coefficients row.now k))) }
{
    if SPARSE && d == 0 {
        return;
    }
    for k in 0..acc.len() {
        acc[k] = torus::add(acc[k], torus::mul(d, row[k]));
    }
}

// In sums, the sums of coefficient i of small times X^i·row, over every i, the last first: so the place in the table rises from turn
// to turn. sums and table are parts of one slice, so the compiler sees that they are apart, and vectorises the inner loop with no test.
fn row_sums<const SPARSE: bool>(sums: &mut [u32], table: &[u32], pair: Pair<'_>)
    requires { (length sums.old ≡ pair.n) × (length table.now ≡ pair.n + pair.n) }
    ensures { Agree pair.entry.n (coefficients sums.new)
        (λ k. row_sum pair.entry.n (words pair.entry.small.now) table.now pair.entry.n k % 2 ^ 32) }
{
    let n = pair.n;
    sums.fill(0);
    for i in (0..n).rev() {
        let d = torus::word_at(pair.small, i);
        add_scaled::<SPARSE>(sums, d, &table[n - i..n - i + n]);
    }
}

// To each word of out, the word of a.
fn add_words(out: &mut [u8], a: &[u32])
    requires { length out.old ≡ 4 * length a.now }
    ensures { words out.new
        ≡ tabulate (length a.now) (λ k. W.add (get_or (words out.old) k 0) (get_or a.now k 0)) }
{
    for k in 0..a.len() {
        let w = torus::word_at(out, k);
        torus::put_word(out, k, torus::add(w, a[k]));
    }
}

// To out, the product of the pair, as the sum of every word of small times X^i·row. room has 3n words.
fn add_by_rows<const SPARSE: bool>(out: &mut [u8], room: &mut [u32], pair: Pair<'_>)
    requires { (length out.old ≡ 4 * pair.n) × (3 * pair.n ≤ length room.old) }
    ensures { words out.new
        ≡ add_product pair.entry.n (words out.old) (words pair.entry.small.now) (words pair.entry.row.now) }
{
    let n = pair.n;
    let (table, rest) = room.split_at_mut(n + n);
    let sums = &mut rest[0..n];
    both_signs(table, pair);
    row_sums::<SPARSE>(sums, table, pair);
    add_words(out, sums);
}

// ---- the product
//
// That out has as many words as the factors stays a clause: a struct round a slice that is written says the same again.

// To out, the product of the pair modulo X^n + 1, in lent room of 3n words. The smallest degrees need no table: to make it takes longer
// than their few terms.
fn add_product_in<const SPARSE: bool>(out: &mut [u8], room: &mut [u32], pair: Pair<'_>)
    requires { (length out.old ≡ 4 * pair.n) × (3 * pair.n ≤ length room.old) }
    ensures { words out.new
        ≡ add_product pair.entry.n (words out.old) (words pair.entry.small.now) (words pair.entry.row.now) }
{
    if pair.n <= 4 {
        ring::add_by_coefficients(out, pair.small, pair.row, pair.n);
    } else {
        add_by_rows::<SPARSE>(out, room, pair);
    }
}

// The same with room of its own. Room is cleared before it is used, so that small degrees have a small one. A const parameter for its size
// is a function more, and no plainer.
fn add_product_roomed<const SPARSE: bool>(out: &mut [u8], pair: Pair<'_>)
    requires { length out.old ≡ 4 * pair.n }
    ensures { words out.new
        ≡ add_product pair.entry.n (words out.old) (words pair.entry.small.now) (words pair.entry.row.now) }
{
    if pair.n <= 64 {
        let mut room = [0u32; 192];
        add_product_in::<SPARSE>(out, &mut room, pair);
    } else {
        let mut room = [0u32; 3072];
        add_product_in::<SPARSE>(out, &mut room, pair);
    }
}

// The product kernel for secret factors: to out, the product of the pair modulo X^n + 1. No word of small steers what is done: small is
// a key, and the time depends on n alone.
pub fn add_product(out: &mut [u8], pair: Pair<'_>)
    requires { length out.old ≡ 4 * pair.n }
    ensures { words out.new
        ≡ add_product pair.entry.n (words out.old) (words pair.entry.small.now) (words pair.entry.row.now) }
{
    add_product_roomed::<false>(out, pair);
}

// The product kernel for public factors: the same, and where it goes by rows words 0 of small cost nothing. Digits are no secrets, and
// many are 0: the difference of two trivial samples has the mask 0, and with it only digits 0 there.
pub fn add_sparse_product(out: &mut [u8], pair: Pair<'_>)
    requires { length out.old ≡ 4 * pair.n }
    ensures { words out.new
        ≡ add_product pair.entry.n (words out.old) (words pair.entry.small.now) (words pair.entry.row.now) }
{
    add_product_roomed::<true>(out, pair);
}

// The same with room of 3n words lent, for who makes many products.
pub fn add_sparse_product_in(out: &mut [u8], room: &mut [u32], pair: Pair<'_>)
    requires { (length out.old ≡ 4 * pair.n) × (3 * pair.n ≤ length room.old) }
    ensures { words out.new
        ≡ add_product pair.entry.n (words out.old) (words pair.entry.small.now) (words pair.entry.row.now) }
{
    add_product_in::<true>(out, room, pair);
}
