// The sum over the rows of a block of digit polynomial times row, one product of polynomials after another, by schoolbook.
#![tactic(auto)]

ghost use Rattle.std.specs.Prelude.{◌≡◌, ℕ, suc, ◌*◌, ◌^◌, ◌≤◌, ◌<◌, length};
ghost use Rattle.torus.specs.Sum.{tabulate, joined, chunk};
ghost use Rattle.torus.specs.Word as W;
ghost use Rattle.torus.specs.Bytes.{words};
ghost use Rattle.ring.specs.Polynomial.{Degree, coefficients, add_product};
ghost use Rattle.rns.specs.Exact.{add_rows};
ghost use Rattle.row_terms.specs.Rows.{row, row_part, row_digits};

use ring::Pair;
use row_terms::Terms;

// To each of the k + 1 polynomials of out, the product of small and the same polynomial of row. room is for 3n words, here and below.
fn add_row(out: &mut [u8], room: &mut [u32], small: &[u8], row: &[u8], k: usize, n: usize)
    requires { Degree n × (length out.old ≡ 4 * (suc k * n)) × (length small.now ≡ 4 * n)
        × (length row.now ≡ 4 * (suc k * n))
        × ((i : ℕ) → i < n → W.magnitude (coefficients (words small.now) i) ≤ 2 ^ 15)
        × (3 * n ≤ length room.old) }
    ensures { words out.new ≡ joined (suc k) (λ c. add_product n
        (chunk n c (words out.old)) (words small.now) (chunk n c (words row.now))) }
{
    let size = 4 * n;
    for c in 0..k + 1 {
        let at = c * size;
        let pair = Pair {
            small,
            row: &row[at..at + size],
            n,
        };
        schoolbook::add_sparse_product_in(&mut out[at..at + size], room, pair);
    }
}

// To out, the term of row r: the digit polynomial that goes with it, which is made in digits, times the row.
fn add_term(out: &mut [u8], digits: &mut [u8], room: &mut [u32], terms: &Terms, r: usize)
    requires { (let t = terms.now in (r < suc t.k * t.gadget.l) × (length out.old ≡ 4 * (suc t.k * t.n))
        × (length digits.old ≡ 4 * t.n) × (3 * t.n ≤ length room.old)) }
    ensures { (let t = terms.now in words out.new ≡ joined (suc t.k) (λ c. add_product t.n (chunk t.n c (words out.old))
        (tabulate t.n (row_digits t.n t.gadget.g t.gadget.l (words t.x.now) r)) (chunk t.n c (row t.n t.k r (words t.block.now))))) }
{
    terms.write_row_digits(digits, r);
    add_row(out, room, digits, terms.row_at(r), terms.k, terms.n);
}

// To out, the terms of all rows of the block. digits has n words.
pub fn add_terms(out: &mut [u8], digits: &mut [u8], room: &mut [u32], terms: &Terms)
    requires { (let t = terms.now in (length out.old ≡ 4 * (suc t.k * t.n)) × (length digits.old ≡ 4 * t.n) × (3 * t.n ≤ length room.old)) }
    ensures { (let t = terms.now in
        words out.new ≡ add_rows t.n t.k (suc t.k * t.gadget.l) (row_digits t.n t.gadget.g t.gadget.l (words t.x.now))
        (row_part t.n t.k (words t.block.now)) (words out.old)) }
{
    // A copy, whose numbers stay in registers: the compiler isn't told that out is apart from what is lent.
    let own = *terms;
    for r in 0..own.row_count() {
        add_term(out, digits, room, &own, r);
    }
}
