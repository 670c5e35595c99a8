// Encryption of a selector bit as a block. Inside, samples have k masks and keys k polynomials.
#![tactic(auto)]

ghost use Rattle.std.specs.Prelude.{◌≡◌, ◌+◌, ◌*◌, ◌/◌, ◌≤◌, ◌<◌, length, get_or};
ghost use Rattle.torus.specs.Sum.{tabulate, chunk};
ghost use Rattle.torus.specs.Word as W;
ghost use Rattle.torus.specs.Bytes.{words};
ghost use Rattle.gadget.specs.Digits.{Lawful};
ghost use Rattle.trgsw.specs.Parameters.{key_size, sample_size, row_count, block_size};
ghost use Rattle.trgsw.specs.Block as Block;
ghost use Rattle.selectors.specs.Encrypted as Encrypted;
ghost use Rattle.selectors.specs.Calls as Calls;
ghost use Rattle.selectors.specs.Inner as Inner;

use answers::{Answer, Checked, Ledger};
use row_terms::place;
use trgsw::{Bounded, Parameters, Scheme};

// What the encryption of a selector reads: degree N, a gadget of L digits in base 2^g, the bit, and the slices that are lent to it: masks and
// errors for all rows.
#[derive(Clone, Copy)]
pub struct Lent<'a> {
    pub N: u64,
    pub g: u64,
    pub L: u64,
    pub bit: u64,
    pub key: &'a [u8],
    pub masks: &'a [u8],
    pub errors: &'a [u8],
}

// To the words of row r, those of its gadget row of the bit m.
fn add_gadget(row: &mut [u8], p: Parameters, m: u32, r: usize)
    requires { Lawful p.g p.L × (m ≤ 1) × (4 * (r / p.L * p.N) + 4 ≤ length row.old) }
    ensures { words row.new ≡ tabulate (length (words row.old))
        (λ t. W.add (get_or (words row.old) t 0) (Block.gadget_row p m r t)) }
{
    let at = r / p.L as usize * p.N;
    let w = m * gadget::step(p.g, place(r, p.L));
    torus::put_word(row, at, torus::add(torus::word_at(row, at), w));
}

// Row r of the block: an encryption of 0 with the masks and errors of this row, plus the gadget row.
fn write_row(row: &mut [u8], lent: &Lent, p: Parameters, r: usize)
    requires { Inner.Rows p lent.now.bit lent.now.key.now lent.now.masks.now lent.now.errors.now
        × (r < row_count p) × (length row.old ≡ 4 * sample_size p) }
    ensures { words row.new ≡ Encrypted.encrypted_row p lent.now.bit (words lent.now.key.now)
        (chunk (key_size p) r (words lent.now.masks.now)) (chunk p.N r (words lent.now.errors.now)) r }
{
    let size = 4 * p.N;
    let masks_size = p.k * size;
    let a = r * masks_size;
    let e = r * size;
    let key = trlwe::SecretKey {
        k: p.k,
        n: p.N,
        polynomials: lent.key,
    };
    let zero = trlwe::Encryption {
        key,
        masks: &lent.masks[a..a + masks_size],
        errors: &lent.errors[e..e + size],
    };
    trlwe::encrypt_zero(row, &zero);
    add_gadget(row, p, lent.bit as u32, r);
}

// The block of the bit.
fn encrypt(block: &mut [u8], lent: &Lent, p: Parameters)
    requires { Inner.Rows p lent.now.bit lent.now.key.now lent.now.masks.now lent.now.errors.now
        × (length block.old ≡ 4 * block_size p) }
    ensures { words block.new ≡ Encrypted.encrypted_block p lent.now.bit
        (words lent.now.key.now) (words lent.now.masks.now) (words lent.now.errors.now) }
{
    // By hand: the set may be beyond the limits of calls, which `Bounded` tells.
    let rows = (p.k + 1) * p.L as usize;
    let size = (p.k + 1) * (4 * p.N);
    for r in 0..rows {
        let at = r * size;
        write_row(&mut block[at..at + size], lent, p, r);
    }
}

// 5: the lengths of the slices.
fn check_lengths(lent: &Lent, block: &[u8], p: Bounded) -> Checked
    ensures { result ≡ Inner.lengths p.set
        lent.now.key.now lent.now.masks.now lent.now.errors.now block.now }
{
    let own = p.key_size();
    let rows = p.row_count();
    let whole = p.block_size() as u64;
    answers::exact(lent.key.len(), own as u64)?;
    answers::exact(lent.masks.len(), (rows * own) as u64)?;
    answers::exact(lent.errors.len(), (rows * p.set.N) as u64)?;
    answers::exact(block.len(), whole)
}

// What encrypt_selector answers. Inlined, so that who asks for the gates alone doesn't go through the errors.
#[tactic(auto, unfolding(crate::specs::Calls::encrypt_selector))]
#[inline]
pub fn encrypt_selector_answer(lent: &Lent, block: &[u8]) -> Answer
    ensures { result ≡ Calls.encrypt_selector (Calls.selector_of lent.now block.now) }
{
    check_lengths(lent, block, trgsw::unweighted(lent.N, lent.g, lent.L)?)?;
    answers::bit(lent.bit)?;
    answers::key(lent.key)?;
    let bound = answers::greatest_magnitude(lent.errors) as u64;
    Ok(Ledger { bound, gates: 0 })
}

// Encrypts a selector bit under the key, with masks and errors that the caller chose.
#[tactic(auto, unfolding(crate::specs::Calls::encrypt_selector_block, answers::specs::Answers::after))]
pub fn encrypt_selector(lent: &Lent, block: &mut [u8]) -> Answer
    ensures { (result ≡ Calls.encrypt_selector (Calls.selector_of lent.now block.old))
        × (block.new ≡ Calls.encrypt_selector_block (Calls.selector_of lent.now block.old)) }
{
    let ledger = encrypt_selector_answer(lent, block)?;
    let scheme = Scheme::new(lent.N, lent.g, lent.L);
    encrypt(block, lent, scheme.parameter_set());
    Ok(ledger)
}
