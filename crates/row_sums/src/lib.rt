// The sum over the rows of a block of digit polynomial times row, by transforms: an external product, row for row. Modulo each prime every
// digit polynomial and every row is transformed, the sums are made in the transform domain, and each polynomial of the result goes back
// once a batch of rows.
#![tactic(auto)]

ghost use Rattle.std.specs.Prelude.{◌≡◌, suc, ◌*◌, ◌≤◌, ◌<◌, length};
ghost use Rattle.torus.specs.Bytes.{AreBytes, words};
ghost use Rattle.gadget.specs.Digits.{half};
ghost use Rattle.rns.specs.Exact.{add_rows};
ghost use Rattle.row_terms.specs.Rows.{row_part, row_digits, digits_from, rows_from};

use row_terms::{Batch, Terms};
use twiddles::Prime;

// The elements of a slice are bytes. That is known of a parameter, and not of a slice in a struct, so this tells it of one.
fn are_bytes(_s: &[u8])
    ensures { AreBytes _s.now }
{}

// To out, the terms of a batch, so few that two primes tell their sums. There is room for one mask and the body.
fn add_batch(out: &mut [u8], room: &mut [u8], batch: &Batch)
    requires { (let t = batch.now.terms in (length out.old ≡ 4 * (suc t.k * t.n)) × (length room.old ≡ 4 * t.n)
        × (batch.now.count * (t.n * half t.gadget.g) ≤ 268415999)) }
    ensures { (let t = batch.now.terms in
        words out.new ≡ add_rows t.n t.k batch.now.count (digits_from t.n t.gadget.g t.gadget.l (words t.x.now) batch.now.from)
        (rows_from t.n t.k (words t.block.now) batch.now.from) (words out.old)) }
{
    are_bytes(batch.terms.block);
    let mut first = [0u32; 2048];
    let mut second = [0u32; 2048];
    let size = (batch.terms.k + 1) * batch.terms.n;
    let first = &mut first[0..size];
    let second = &mut second[0..size];
    row_terms::read_terms(first, room, batch, Prime::First);
    row_terms::read_terms(second, room, batch, Prime::Second);
    residues::add_words(out, first, second);
}

// The most rows of a batch. Digits are at most half of the base and words at most 2^31, so a sum over R rows is at most
// R·n·2^(g-1)·2^31, and two primes tell it if R·n·2^(g-1) is at most 268,415,999: seven rows at least, whatever the degree and the
// gadget. And 64 bits hold sixteen products that are not reduced.
fn most_rows(terms: &Terms) -> usize
    ensures { (0 < result) × (result ≤ 16) × (result * (terms.now.n * half terms.now.gadget.g) ≤ 268415999) }
{
    (268415999 / (terms.n * gadget::half(terms.gadget.g) as usize)).min(16)
}

// To out, the terms of all rows of the block, in batches. room has n words. The last batch may be a short one, so that the loop counts by
// what each batch took.
pub fn add_rows(out: &mut [u8], room: &mut [u8], terms: &Terms)
    requires { (terms.now.k ≤ 1) × (length room.old ≡ 4 * terms.now.n) × (length out.old ≡ 4 * (suc terms.now.k * terms.now.n)) }
    ensures { (let t = terms.now in
        words out.new ≡ add_rows t.n t.k (suc t.k * t.gadget.l) (row_digits t.n t.gadget.g t.gadget.l (words t.x.now))
        (row_part t.n t.k (words t.block.now)) (words out.old)) }
{
    let rows = terms.row_count();
    let most = most_rows(terms);
    let mut from: usize = 0;
    while from < rows {
        let count = most.min(rows - from);
        add_batch(
            out,
            room,
            &Batch {
                terms: *terms,
                from,
                count,
            },
        );
        from += count;
    }
}
