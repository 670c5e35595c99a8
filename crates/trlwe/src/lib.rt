// TRLWE samples ("packed samples"): encryption and decryption of classes. Inside, samples have k masks and keys k polynomials;
// the public calls pass k = 1.
#![tactic(auto)]

ghost use Rattle.std.specs.Prelude.{◌≡◌, ℕ, suc, ◌+◌, ◌*◌, ◌/◌, ◌≤◌, ◌<◌, length, get_or};
ghost use Rattle.torus.specs.Sum.{tabulate};
ghost use Rattle.torus.specs.Word as W;
ghost use Rattle.torus.specs.Bytes.{words};
ghost use Rattle.ring.specs.Polynomial.{Degree};
ghost use Rattle.answers.specs.Checks.{ClassNumber};
ghost use Rattle.trlwe.specs.Classes as Classes;
ghost use Rattle.trlwe.specs.Sample as Sample;
ghost use Rattle.trlwe.specs.Calls as Calls;

use answers::Answer;

// ---- classes

// The encoding of m classes as words.
#[derive(Clone, Copy)]
pub struct Encoding {
    pub m: u64,
    pub ghost class_number: { ClassNumber m },
}

impl Encoding {
    // The word of class c.
    #[tactic(auto, unfolding(crate::specs::Classes::encode))]
    pub fn encode(self, c: u32) -> u32
        requires { c < self.m }
        ensures { result ≡ Classes.encode self.m c }
    {
        (c as u64 * (4294967296 / self.m)) as u32
    }

    // The class of a phase word.
    #[tactic(auto, unfolding(crate::specs::Classes::decode))]
    pub fn decode(self, f: u32) -> u32
        ensures { result ≡ Classes.decode self.m f }
    {
        let moved = torus::add(f, (2147483648 / self.m) as u32);
        (moved as u64 / (4294967296 / self.m)) as u32
    }
}

// The classes that a sample is to carry.
#[derive(Clone, Copy)]
pub struct Message<'a> {
    pub encoding: Encoding,
    pub classes: &'a [u8],
    pub ghost below: { (i : ℕ) → i < length classes.now / 4 → get_or (words classes.now) i 0 < encoding.m },
}

// ---- encryption

// A key of k polynomials of n words each.
#[derive(Clone, Copy)]
pub struct SecretKey<'a> {
    pub k: usize,
    pub n: usize,
    pub polynomials: &'a [u8],
    pub ghost fits: { Sample.Key n k polynomials.now },
}

// To out, a·K: the products of the k masks, which stand at the front of a, with the key's polynomials.
fn add_masked(out: &mut [u8], key: &SecretKey, a: &[u8])
    requires { (length out.old ≡ 4 * key.now.n) × (4 * (key.now.k * key.now.n) ≤ length a.now) }
    ensures { words out.new ≡ tabulate key.now.n (λ i. W.add (get_or (words out.old) i 0)
        (Sample.masked key.now.n key.now.k (words key.now.polynomials.now) (words a.now) i)) }
{
    let size = 4 * key.n;
    for c in 0..key.k {
        let at = c * size;
        rns::add_product(
            out,
            &key.polynomials[at..at + size],
            &a[at..at + size],
            key.n,
        );
    }
}

// What an encryption takes beside its message: the key, and masks and errors that the caller chose.
#[derive(Clone, Copy)]
pub struct Encryption<'a> {
    pub key: SecretKey<'a>,
    pub masks: &'a [u8],
    pub errors: &'a [u8],
    pub ghost masks_length: { length masks.now ≡ 4 * (key.k * key.n) },
    pub ghost errors_length: { length errors.now ≡ 4 * key.n },
}

// The body of an encryption of 0: the errors, and a·K.
#[tactic(auto, using(crate::proofs::Masks::body_made))]
fn write_body(out: &mut [u8], x: &Encryption)
    requires { length out.old ≡ 4 * x.now.key.n }
    ensures { words out.new ≡ tabulate x.now.key.n (Sample.body x.now.key.n x.now.key.k
        (words x.now.key.polynomials.now) (words x.now.masks.now) (words x.now.errors.now) (λ i. 0)) }
{
    torus::copy_words(out, x.errors);
    add_masked(out, &x.key, x.masks);
}

// An encryption of 0.
// That a sample has k + 1 polynomials stays a clause, here and below: a struct round a lent slice that is written would say the same of
// k, n and the slice, and be made anew for each part of a slice that is lent on.
pub fn encrypt_zero(sample: &mut [u8], x: &Encryption)
    requires { length sample.old ≡ 4 * (x.now.key.k * x.now.key.n) + 4 * x.now.key.n }
    ensures { words sample.new ≡ Sample.encryption x.now.key.n x.now.key.k
        (words x.now.key.polynomials.now) (words x.now.masks.now) (words x.now.errors.now) (λ i. 0) }
{
    let body = x.masks.len();
    torus::copy_words(&mut sample[0..body], x.masks);
    write_body(&mut sample[body..], x);
}

// To a body, a message of no more classes than it has words.
fn add_message(body: &mut [u8], message: &Message)
    requires { length message.now.classes.now ≤ length body.old }
    ensures { words body.new ≡ tabulate (length body.old / 4) (λ i. W.add (get_or (words body.old) i 0)
        (Classes.message message.now.encoding.m (length message.now.classes.now / 4) (words message.now.classes.now) i)) }
{
    for i in 0..message.classes.len() / 4 {
        let w = message.encoding.encode(torus::word_at(message.classes, i));
        torus::put_word(body, i, torus::add(torus::word_at(body, i), w));
    }
}

// An encryption of a message.
fn encrypt(sample: &mut [u8], x: &Encryption, message: &Message)
    requires { (length sample.old ≡ 4 * (x.now.key.k * x.now.key.n) + 4 * x.now.key.n)
        × (length message.now.classes.now ≤ 4 * x.now.key.n) }
    ensures { words sample.new ≡ Sample.encryption x.now.key.n x.now.key.k
        (words x.now.key.polynomials.now) (words x.now.masks.now) (words x.now.errors.now)
        (Classes.message message.now.encoding.m (length message.now.classes.now / 4) (words message.now.classes.now)) }
{
    let body = x.masks.len();
    encrypt_zero(sample, x);
    add_message(&mut sample[body..], message);
}

// The trivial sample of a message: masks 0, and the message as body. k and n tell of a sample what none of its slices does.
pub fn write_trivial(sample: &mut [u8], message: &Message, k: usize, n: usize)
    requires { (length sample.old ≡ 4 * (k * n) + 4 * n) × (length message.now.classes.now ≤ 4 * n) }
    ensures { words sample.new ≡ Sample.trivial n k
        (Classes.message message.now.encoding.m (length message.now.classes.now / 4) (words message.now.classes.now)) }
{
    let body = 4 * (k * n);
    torus::clear_words(sample);
    add_message(&mut sample[body..], message);
}

// What encrypt_classes answers. The numbers and the slices of a call are arguments of their own: so the C interface lends them, and so
// its definition takes them.
#[tactic(auto, unfolding(crate::specs::Calls::encrypt_classes))]
pub fn encrypt_classes_answer(
    n: u64,
    m: u64,
    s: u64,
    key: &[u8],
    mask: &[u8],
    errors: &[u8],
    classes: &[u8],
    sample: &[u8],
) -> Answer
    ensures { result ≡ Calls.encrypt_classes n m s
        key.now mask.now errors.now classes.now sample.now }
{
    answers::sample_numbers(n, m, s)?;
    answers::exact(key.len(), n)?;
    answers::exact(mask.len(), n)?;
    answers::exact(errors.len(), n)?;
    answers::exact(classes.len(), s)?;
    answers::exact(sample.len(), 2 * n)?;
    answers::classes(m, classes)?;
    answers::key(key)?;
    answers::noise(m, answers::greatest_magnitude(errors) as u64, 0)
}

// Encrypts s classes under the key, with a mask and errors that the caller chose: these three go into one struct, and so have one lifetime.
#[tactic(auto, unfolding(crate::specs::Calls::encrypt_classes_sample, answers::specs::Answers::after))]
pub fn encrypt_classes<'a>(
    n: u64,
    m: u64,
    s: u64,
    key: &'a [u8],
    mask: &'a [u8],
    errors: &'a [u8],
    classes: &[u8],
    sample: &mut [u8],
) -> Answer
    ensures { (result ≡ Calls.encrypt_classes n m s
        key.now mask.now errors.now classes.now sample.old)
        × (sample.new ≡ Calls.encrypt_classes_sample n m s
        key.now mask.now errors.now classes.now sample.old) }
{
    let ledger = encrypt_classes_answer(n, m, s, key, mask, errors, classes, sample)?;
    let key = SecretKey {
        k: 1,
        n: n as usize,
        polynomials: key,
    };
    let encryption = Encryption {
        key,
        masks: mask,
        errors,
    };
    let message = Message {
        encoding: Encoding { m },
        classes,
    };
    encrypt(sample, &encryption, &message);
    Ok(ledger)
}

// ---- decryption

// Classes from the body of a sample, whose first word has the number `from`, less the words of room.
fn decode_words(classes: &mut [u8], sample: &[u8], room: &[u8], from: usize, encoding: Encoding)
    requires { (length classes.old ≤ length room.now) × (4 * from + length classes.old ≤ length sample.now) }
    ensures { words classes.new ≡ tabulate (length classes.old / 4) (λ i. Classes.decode encoding.m
        (W.sub (get_or (words sample.now) (from + i) 0) (get_or (words room.now) i 0))) }
{
    for i in 0..classes.len() / 4 {
        let f = torus::sub(torus::word_at(sample, from + i), torus::word_at(room, i));
        torus::put_word(classes, i, encoding.decode(f));
    }
}

// Decrypts as many classes as there is place for; a·K is made in room, which has n words.
fn decrypt_in(
    classes: &mut [u8],
    room: &mut [u8],
    key: &SecretKey,
    sample: &[u8],
    encoding: Encoding,
)
    requires { (length sample.now ≡ 4 * (key.now.k * key.now.n) + 4 * key.now.n) × (length room.old ≡ 4 * key.now.n)
        × (length classes.old ≤ 4 * key.now.n) }
    ensures { words classes.new ≡ Sample.decrypted key.now.n key.now.k encoding.m (length classes.old / 4)
        (words key.now.polynomials.now) (words sample.now) }
{
    torus::clear_words(room);
    add_masked(room, key, sample);
    decode_words(classes, sample, room, key.k * key.n, encoding);
}

// Decrypts as many classes as there is place for. The room has a fixed size, for the largest degree: nothing is allocated.
fn decrypt(classes: &mut [u8], key: &SecretKey, sample: &[u8], encoding: Encoding)
    requires { (length sample.now ≡ 4 * (key.now.k * key.now.n) + 4 * key.now.n)
        × (length classes.old ≤ 4 * key.now.n) }
    ensures { words classes.new ≡ Sample.decrypted key.now.n key.now.k encoding.m (length classes.old / 4)
        (words key.now.polynomials.now) (words sample.now) }
{
    let mut room = [0u8; 4096];
    decrypt_in(classes, &mut room[0..4 * key.n], key, sample, encoding);
}

// What decrypt_classes answers.
#[tactic(auto, unfolding(crate::specs::Calls::decrypt_classes))]
pub fn decrypt_classes_answer(
    n: u64,
    m: u64,
    s: u64,
    key: &[u8],
    sample: &[u8],
    classes: &[u8],
) -> Answer
    ensures { result ≡ Calls.decrypt_classes n m s
        key.now sample.now classes.now }
{
    answers::sample_numbers(n, m, s)?;
    answers::exact(key.len(), n)?;
    answers::exact(sample.len(), 2 * n)?;
    answers::exact(classes.len(), s)?;
    answers::key(key)?;
    answers::accepted()
}

// Decrypts s classes of a sample.
#[tactic(auto, unfolding(crate::specs::Calls::decrypt_classes_classes, answers::specs::Answers::after))]
pub fn decrypt_classes(
    n: u64,
    m: u64,
    s: u64,
    key: &[u8],
    sample: &[u8],
    classes: &mut [u8],
) -> Answer
    ensures { (result ≡ Calls.decrypt_classes n m s
        key.now sample.now classes.old)
        × (classes.new ≡ Calls.decrypt_classes_classes n m s
        key.now sample.now classes.old) }
{
    let ledger = decrypt_classes_answer(n, m, s, key, sample, classes)?;
    let key = SecretKey {
        k: 1,
        n: n as usize,
        polynomials: key,
    };
    decrypt(classes, &key, sample, Encoding { m });
    Ok(ledger)
}

// ---- rotation

// X^(-r) times a sample, polynomial by polynomial.
pub fn rotate(out: &mut [u8], sample: &[u8], k: usize, n: usize, r: usize)
    requires { Degree n × (length out.old ≡ 4 * (suc k * n)) × (length sample.now ≡ 4 * (suc k * n)) × (r ≤ n) }
    ensures { words out.new ≡ Sample.rotated_sample n k r (words sample.now) }
{
    let size = 4 * n;
    for c in 0..k + 1 {
        let at = c * size;
        ring::rotate(&mut out[at..at + size], &sample[at..at + size], r);
    }
}
