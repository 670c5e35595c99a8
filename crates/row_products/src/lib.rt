// The sum over the rows of a block of digit polynomial times row, an external product row for row, by the faster of two ways: schoolbook,
// which skips digits 0, or transforms.
#![tactic(auto)]

ghost use Rattle.std.specs.Prelude.{◌≡◌, suc, ◌*◌, ◌≤◌, length};
ghost use Rattle.torus.specs.Bytes.{words};
ghost use Rattle.rns.specs.Exact.{add_rows};
ghost use Rattle.row_terms.specs.Rows.{row_part, row_digits};

use row_terms::Terms;

// To out, the terms of all rows by schoolbook, at degrees for which BYTES bytes and WORDS words are room enough. Room is cleared once for
// all products, and is to be no larger than it must be: to clear that of a great degree takes longer than the products of a small one.
fn add_rows_by_schoolbook<const BYTES: usize, const WORDS: usize>(out: &mut [u8], terms: &Terms)
    requires { (let t = terms.now in (length out.old ≡ 4 * (suc t.k * t.n)) × (4 * t.n ≤ BYTES) × (BYTES ≤ 4096)
        × (3 * t.n ≤ WORDS) × (WORDS ≤ 3072)) }
    ensures { (let t = terms.now in
        words out.new ≡ add_rows t.n t.k (suc t.k * t.gadget.l) (row_digits t.n t.gadget.g t.gadget.l (words t.x.now))
        (row_part t.n t.k (words t.block.now)) (words out.old)) }
{
    let mut digits = [0u8; BYTES];
    let mut room = [0u32; WORDS];
    let digits = &mut digits[..];
    schoolbook_rows::add_terms(out, &mut digits[0..4 * terms.n], &mut room, terms);
}

// The same by transforms. The sums of row_sums have room for one mask and the body.
fn add_rows_by_transforms(out: &mut [u8], terms: &Terms)
    requires { (let t = terms.now in (length out.old ≡ 4 * (suc t.k * t.n)) × (t.k ≤ 1)) }
    ensures { (let t = terms.now in
        words out.new ≡ add_rows t.n t.k (suc t.k * t.gadget.l) (row_digits t.n t.gadget.g t.gadget.l (words t.x.now))
        (row_part t.n t.k (words t.block.now)) (words out.old)) }
{
    let mut digits = [0u8; 4096];
    row_sums::add_rows(out, &mut digits[0..4 * terms.n], terms);
}

// How many words of x are not 0. It decides on speed alone, so that nothing is promised of it.
fn nonzero_words(x: &[u8]) -> usize {
    (0..x.len() / 4)
        .filter(|i| torus::word_at(x, *i) != 0)
        .count()
}

// To out, the terms of all rows of the block. Up to degree 64 no other way is faster than schoolbook, nor where the sample has so few
// words that are not 0, as the difference of two entries of a lookup has: schoolbook skips the digits of the others.
pub fn add_rows(out: &mut [u8], terms: &Terms)
    requires { length out.old ≡ 4 * (suc terms.now.k * terms.now.n) }
    ensures { (let t = terms.now in
        words out.new ≡ add_rows t.n t.k (suc t.k * t.gadget.l) (row_digits t.n t.gadget.g t.gadget.l (words t.x.now))
        (row_part t.n t.k (words t.block.now)) (words out.old)) }
{
    if terms.n <= 4 {
        add_rows_by_schoolbook::<16, 12>(out, terms);
    } else if terms.n <= 64 {
        add_rows_by_schoolbook::<256, 192>(out, terms);
    } else if 1 < terms.k || nonzero_words(terms.x) < 64 {
        add_rows_by_schoolbook::<4096, 3072>(out, terms);
    } else {
        add_rows_by_transforms(out, terms);
    }
}
