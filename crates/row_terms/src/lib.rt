// The terms of the rows of a block, digit polynomial times row, summed up modulo one prime.
#![tactic(auto)]

ghost use Rattle.std.specs.Prelude.{◌≡◌, ℕ, suc, ◌+◌, ◌*◌, ◌/◌, ◌%◌, ◌≤◌, ◌<◌, length};
ghost use Rattle.torus.specs.Sum.{tabulate};
ghost use Rattle.torus.specs.Bytes.{words};
ghost use Rattle.ring.specs.Polynomial.{Degree, Agree, coefficients, log};
ghost use Rattle.butterflies.specs.Butterflies.{Below};
ghost use Rattle.twiddles.specs.Primes.{modulus};
ghost use Rattle.residues.specs.Residues.{Within};
ghost use Rattle.held_sums.specs.Sums.{Zeros, Places, OneMore, Held, Told};
ghost use Rattle.row_terms.specs.Rows.{block_size, row, row_digits, digits_from, rows_from};

use gadget::Gadget;
use twiddles::Prime;

// The terms of an external product: the rows of a block, and a sample, whose digits go with them. Both have k masks and a body, of n
// coefficients each.
#[derive(Clone, Copy)]
pub struct Terms<'a> {
    pub block: &'a [u8],
    pub x: &'a [u8],
    pub k: usize,
    pub n: usize,
    pub gadget: Gadget,
    pub ghost degree: { Degree n },
    pub ghost block_length: { length block.now ≡ 4 * block_size n k gadget.l },
    pub ghost x_length: { length x.now ≡ 4 * (suc k * n) },
}

impl<'a> Terms<'a> {
    // How many rows the block has.
    pub fn row_count(&self) -> usize
        ensures { result ≡ suc self.now.k * self.now.gadget.l }
    {
        (self.k + 1) * self.gadget.l as usize
    }

    // The bytes of row r.
    pub fn row_at(&self, r: usize) -> &'a [u8]
        requires { r < suc self.now.k * self.now.gadget.l }
        ensures { (words result.now ≡ row self.now.n self.now.k r (words self.now.block.now)) × (length result.now ≡ 4 * (suc self.now.k * self.now.n)) }
    {
        row_at(self.block, self.k, self.n, r)
    }

    // To out, the digit polynomial that goes with row r.
    pub fn write_row_digits(&self, out: &mut [u8], r: usize)
        requires { (r < suc self.now.k * self.now.gadget.l) × (length out.old ≡ 4 * self.now.n) }
        ensures { words out.new ≡ tabulate self.now.n (row_digits self.now.n self.now.gadget.g self.now.gadget.l (words self.now.x.now) r) }
    {
        write_row_digits(out, self.x, self.n, self.gadget, r);
    }
}

// Some of the terms of a sample with one mask at most, so few that 64 bits hold their sums.
#[derive(Clone, Copy)]
pub struct Batch<'a> {
    pub terms: Terms<'a>,
    pub from: usize,
    pub count: usize,
    pub ghost inside: { from + count ≤ suc terms.k * terms.gadget.l },
    pub ghost few: { count ≤ 16 },
    pub ghost narrow: { terms.k ≤ 1 },
}

// The number j, from 1 to l, of row r among the rows for its polynomial.
pub fn place(r: usize, l: u32) -> u32
    requires { (1 ≤ l) × (l ≤ 32) }
    ensures { (result ≡ suc (r % l)) × (result ≤ l) }
{
    (r % l as usize) as u32 + 1
}

// To out, the digit polynomial of x that goes with row r. This and row_at are for who has no block beside the sample, or no sample beside
// the block; for both there are the methods of Terms.
pub fn write_row_digits(out: &mut [u8], x: &[u8], n: usize, gadget: Gadget, r: usize)
    requires { (length out.old ≡ 4 * n) × (4 * (suc (r / gadget.l) * n) ≤ length x.now) }
    ensures { words out.new ≡ tabulate n (row_digits n gadget.g gadget.l (words x.now) r) }
{
    let size = 4 * n;
    let from = r / gadget.l as usize * size;
    gadget.write_digits(out, &x[from..from + size], place(r, gadget.l));
}

// The bytes of row r of a block.
pub fn row_at<'a>(block: &'a [u8], k: usize, n: usize, r: usize) -> &'a [u8]
    requires { (0 < n) × (4 * (suc r * (suc k * n)) ≤ length block.now) }
    ensures { (words result.now ≡ row n k r (words block.now)) × (length result.now ≡ 4 * (suc k * n)) }
{
    let size = 4 * ((k + 1) * n);
    let at = r * size;
    &block[at..at + size]
}

// How many words 0 s begins with.
fn zeros(s: &[u8]) -> usize
    ensures { (result ≤ length s.now / 4) × Agree result (coefficients (words s.now)) (λ i. 0) }
{
    let n = s.len() / 4;
    for i in 0..n {
        if torus::word_at(s, i) != 0 {
            return i;
        }
    }
    n
}

// One row more. Digits are no secrets, and a polynomial of digits 0 costs nothing.
#[tactic(auto, using(crate::proofs::RowLaws::none_held))]
fn hold_row(sums: &mut [u64], digits: &[u8], row: &[u8], k: usize, n: usize, prime: Prime)
    requires { Places n k sums.old × Within 15 sums.old × (length digits.now ≡ 4 * n) × (length row.now ≡ 4 * (suc k * n)) }
    ensures { OneMore prime (log n) n k (words digits.now) (words row.now) sums.old sums.new }
{
    if zeros(digits) == n {
        return;
    }
    held_sums::add_row(sums, digits, row, k, n, prime);
}

// The term of row r, to the sums: the digit polynomial that goes with the row, which is made in room, times the row.
fn hold_term(sums: &mut [u64], room: &mut [u8], terms: &Terms, r: usize, prime: Prime)
    requires { let t = terms.now in
        Places t.n t.k sums.old × Within 15 sums.old × (length room.old ≡ 4 * t.n) × (r < suc t.k * t.gadget.l) }
    ensures { let t = terms.now in
        OneMore prime (log t.n) t.n t.k (tabulate t.n (row_digits t.n t.gadget.g t.gadget.l (words t.x.now) r))
        (row t.n t.k r (words t.block.now)) sums.old sums.new }
{
    terms.write_row_digits(room, r);
    hold_row(sums, room, terms.row_at(r), terms.k, terms.n, prime);
}

// All terms of a batch. The sums hold no row before.
fn hold_terms(sums: &mut [u64], room: &mut [u8], batch: &Batch, prime: Prime)
    requires { Places batch.now.terms.n batch.now.terms.k sums.old × Zeros sums.old × (length room.old ≡ 4 * batch.now.terms.n) }
    ensures { (let t = batch.now.terms in
        Held prime (log t.n) t.n t.k batch.now.count (digits_from t.n t.gadget.g t.gadget.l (words t.x.now) batch.now.from)
        (rows_from t.n t.k (words t.block.now) batch.now.from) sums.new) }
{
    for j in 0..batch.count {
        hold_term(sums, room, &batch.terms, batch.from + j, prime);
    }
}

// The residues of the sums of these terms, modulo one prime. sums is room, all 0.
fn read_terms_in(a: &mut [u32], sums: &mut [u64], room: &mut [u8], batch: &Batch, prime: Prime)
    requires { Places batch.now.terms.n batch.now.terms.k sums.old × Zeros sums.old × (length room.old ≡ 4 * batch.now.terms.n)
        × (length a.old ≡ suc batch.now.terms.k * batch.now.terms.n) }
    ensures { (let t = batch.now.terms in
        Told prime t.n t.k batch.now.count (digits_from t.n t.gadget.g t.gadget.l (words t.x.now) batch.now.from)
        (rows_from t.n t.k (words t.block.now) batch.now.from) a.new) × Below (modulus prime) a.new }
{
    hold_terms(sums, room, batch, prime);
    sums_back::read_sums(a, sums, batch.terms.k, batch.terms.n, prime);
}

// The same, with room for one mask and the body.
pub fn read_terms(a: &mut [u32], room: &mut [u8], batch: &Batch, prime: Prime)
    requires { (length room.old ≡ 4 * batch.now.terms.n) × (length a.old ≡ suc batch.now.terms.k * batch.now.terms.n) }
    ensures { (let t = batch.now.terms in
        Told prime t.n t.k batch.now.count (digits_from t.n t.gadget.g t.gadget.l (words t.x.now) batch.now.from)
        (rows_from t.n t.k (words t.block.now) batch.now.from) a.new) × Below (modulus prime) a.new }
{
    let mut sums = [0u64; 2048];
    let size = (batch.terms.k + 1) * batch.terms.n;
    read_terms_in(a, &mut sums[0..size], room, batch, prime);
}
