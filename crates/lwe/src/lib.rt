// Scalar samples, which the field calls LWE samples: their decryption, and their extraction from TRLWE samples. Inside, samples
// have k masks; the public calls pass k = 1.
#![tactic(auto)]

ghost use Rattle.std.specs.Prelude.{◌≡◌, ◌+◌, ◌*◌, ◌/◌, ◌%◌, ◌^◌, ◌≤◌, ◌<◌, length, get_or};
ghost use Rattle.torus.specs.Sum.{sum};
ghost use Rattle.torus.specs.Bytes.{words};
ghost use Rattle.lwe.specs.Scalar as Scalar;
ghost use Rattle.lwe.specs.Calls as Calls;

use answers::Answer;

// ---- decryption

// The sum of the mask words times the key words, of which there are as many.
#[tactic(auto, using(torus::proofs::Sums::summed_none, torus::proofs::Sums::summed_more))]
fn inner_product(scalar: &[u8], key: &[u8]) -> u32
    requires { length key.now ≤ length scalar.now }
    ensures { result ≡ sum (length key.now / 4) (λ j. get_or (words scalar.now) j 0 * get_or (words key.now) j 0) % 2 ^ 32 }
{
    let mut total = 0;
    for j in 0..key.len() / 4 {
        total = torus::add(
            total,
            torus::mul(torus::word_at(scalar, j), torus::word_at(key, j)),
        );
    }
    total
}

// The phase of a scalar sample, which has one word more than the key.
#[tactic(auto, unfolding(crate::specs::Scalar::scalar_phase))]
fn scalar_phase(scalar: &[u8], key: &[u8]) -> u32
    requires { length scalar.now ≡ length key.now + 4 }
    ensures { result ≡ Scalar.scalar_phase (length key.now / 4) (words key.now) (words scalar.now) }
{
    torus::sub(
        torus::word_at(scalar, key.len() / 4),
        inner_product(scalar, key),
    )
}

// What decrypt_scalar answers. The numbers and the slices of a call are arguments of their own: so the C interface lends them, and so its
// definition takes them.
#[tactic(auto, unfolding(crate::specs::Calls::decrypt_scalar))]
pub fn decrypt_scalar_answer(n: u64, m: u64, key: &[u8], scalar: &[u8], class: &[u8]) -> Answer
    ensures { result ≡ Calls.decrypt_scalar n m key.now scalar.now class.now }
{
    answers::degree(n)?;
    answers::class_number(m)?;
    answers::exact(key.len(), n)?;
    answers::exact(scalar.len(), n + 1)?;
    answers::exact(class.len(), 1)?;
    answers::key(key)?;
    answers::accepted()
}

// Decrypts the class of a scalar sample.
#[tactic(auto, unfolding(crate::specs::Calls::decrypt_scalar_class, answers::specs::Answers::after))]
pub fn decrypt_scalar(n: u64, m: u64, key: &[u8], scalar: &[u8], class: &mut [u8]) -> Answer
    ensures { (result ≡ Calls.decrypt_scalar n m
        key.now scalar.now class.old)
        × (class.new ≡ Calls.decrypt_scalar_class n m
        key.now scalar.now class.old) }
{
    let ledger = decrypt_scalar_answer(n, m, key, scalar, class)?;
    let phase = scalar_phase(scalar, key);
    torus::put_word(class, 0, trlwe::Encoding { m }.decode(phase));
    Ok(ledger)
}

// ---- extraction

// Word j of the mask whose first word has the number `at`, as coefficient p is extracted.
#[tactic(auto, unfolding(crate::specs::Scalar::extracted_word))]
fn extracted_word(sample: &[u8], at: usize, p: usize, j: usize, n: usize) -> u32
    requires { (4 * (at + n) ≤ length sample.now) × (p < n) × (j < n) }
    ensures { result ≡ Scalar.extracted_word n p (λ i. get_or (words sample.now) (at + i) 0) j }
{
    if j <= p {
        return torus::word_at(sample, at + (p - j));
    }
    torus::sub(0, torus::word_at(sample, at + (n + p - j)))
}

// The scalar sample of coefficient p.
fn write_scalar(scalar: &mut [u8], sample: &[u8], k: usize, n: usize, p: usize)
    requires { (length sample.now ≡ 4 * (k * n) + 4 * n) × (length scalar.old ≡ 4 * (k * n + 1)) × (p < n) }
    ensures { words scalar.new ≡ Scalar.extracted n k p (words sample.now) }
{
    let masks = k * n;
    for t in 0..masks {
        torus::put_word(scalar, t, extracted_word(sample, t / n * n, p, t % n, n));
    }
    torus::put_word(scalar, masks, torus::word_at(sample, masks + p));
}

// What extract answers.
#[tactic(auto, unfolding(crate::specs::Calls::extract))]
pub fn extract_answer(n: u64, p: u64, sample: &[u8], scalar: &[u8]) -> Answer
    ensures { result ≡ Calls.extract n p sample.now scalar.now }
{
    answers::degree(n)?;
    answers::position(n, p)?;
    answers::exact(sample.len(), 2 * n)?;
    answers::exact(scalar.len(), n + 1)?;
    answers::accepted()
}

// Extracts coefficient p of a sample as a scalar sample.
#[tactic(auto, unfolding(crate::specs::Calls::extract_scalar, answers::specs::Answers::after))]
pub fn extract(n: u64, p: u64, sample: &[u8], scalar: &mut [u8]) -> Answer
    ensures { (result ≡ Calls.extract n p sample.now scalar.old)
        × (scalar.new ≡ Calls.extract_scalar n p sample.now scalar.old) }
{
    let ledger = extract_answer(n, p, sample, scalar)?;
    write_scalar(scalar, sample, 1, n as usize, p as usize);
    Ok(ledger)
}
