// Words and their residues modulo primes: lists of residues, sums of their products place by place, and the words that two residues
// tell.
#![tactic(auto)]

ghost use Rattle.std.specs.Prelude.{◌≡◌, ◌+◌, ◌*◌, ◌<◌, ◌≤◌, length};
ghost use Rattle.torus.specs.Bytes.{words};
ghost use Rattle.butterflies.specs.Same.{Same};
ghost use Rattle.butterflies.specs.Butterflies.{Below, Stored, Reduced};
ghost use Rattle.twiddles.specs.Primes.{P1, P2};
ghost use Rattle.residues.specs.Residues.{residue, Word, Within, Lifted, Summed, Scaled, Added};

use butterflies::Factor;

// The residue of a word, below 4·p: w itself, or w - 2^32 + 4·p. p is a number here, as it is in butterflies.
fn lift(w: u32, p: u32) -> u32
    requires { (p < 1073741824) × (4294967296 ≤ 6 * p) }
    ensures { (result < 4 * p) × Same p result (residue p w) }
{
    if w < 2147483648 {
        w
    } else {
        w - (4294967295 - (4 * (p - 1) + 3))
    }
}

// The residues of the words of s.
pub fn lift_words(a: &mut [u32], s: &[u8], p: u32)
    requires { (p < 1073741824) × (4294967296 ≤ 6 * p) × (length s.now ≡ 4 * length a.old) }
    ensures { Stored (Lifted p (words s.now)) (length a.old) a.old a.new }
{
    for i in 0..a.len() {
        a[i] = lift(torus::word_at(s, i), p);
    }
}

// s + x·y. Nothing is reduced: 64 bits hold sixteen products of numbers below 2^30.
fn plus_product(s: u64, x: u32, y: u32) -> u64
    requires { (s ≤ 15 * 1152921504606846976) × (x < 1073741824) × (y < 1073741824) }
    ensures { result ≡ s + x * y }
{
    s + x as u64 * y as u64
}

// To the sums, f times g, place by place.
pub fn accumulate(sums: &mut [u64], f: &[u32], g: &[u32])
    requires { Within 15 sums.old × Below 1073741824 f.now × Below 1073741824 g.now
        × (length f.now ≡ length sums.old) × (length g.now ≡ length sums.old) }
    ensures { Stored (Summed sums.old f.now g.now) (length sums.old)
        sums.old sums.new }
{
    for i in 0..sums.len() {
        sums[i] = plus_product(sums[i], f[i], g[i]);
    }
}

// x modulo p. The compiler turns the remainder by either prime, which it knows, into a product.
fn remainder(x: u64, p: u32) -> u32
    requires { 0 < p }
    ensures { (result < p) × Same p result x }
{
    if p == twiddles::P1 {
        (x % twiddles::P1 as u64) as u32
    } else if p == twiddles::P2 {
        (x % twiddles::P2 as u64) as u32
    } else {
        (x % p as u64) as u32
    }
}

// The sums modulo p.
pub fn reduce_sums(a: &mut [u32], sums: &[u64], p: u32)
    requires { (0 < p) × (length sums.now ≡ length a.old) }
    ensures { Stored (Reduced p sums.now) (length a.old) a.old a.new }
{
    for i in 0..a.len() {
        a[i] = remainder(sums[i], p);
    }
}

// a times w, modulo p.
pub fn scale(a: &mut [u32], factor: Factor)
    ensures { Stored (Scaled factor.p factor.w a.old) (length a.old) a.old a.new }
{
    for x in a.iter_mut() {
        *x = butterflies::reduced(factor.shoup(*x), factor.p);
    }
}

// The number below P1·P2 that is x modulo P1 and y modulo P2, by the Chinese remainder theorem: x plus P1 times (y - x)/P1 modulo P2.
fn crt(x: u32, y: u32) -> u64
    requires { (x < P1) × (y < P2) }
    ensures { (result < P1 * P2) × Same P1 result x × Same P2 result y }
{
    let d = y + 3221096451 - x;
    let inverse = Factor {
        w: 805143046,
        v: 3220701184,
        p: twiddles::P2,
    };
    let k = butterflies::reduced(inverse.shoup(d), inverse.p);
    (x as u64) + twiddles::P1 as u64 * (k as u64)
}

// The word of the integer that is x modulo P1 and y modulo P2: a number above the half of P1·P2 stands for a negative one.
fn word(x: u32, y: u32) -> u32
    requires { (x < P1) × (y < P2) }
    ensures { Word x y result }
{
    let v = crt(x, y);
    let l = (v % 4294967296) as u32;
    if v <= 576418972683954176 {
        l
    } else {
        l.wrapping_sub(3644772353)
    }
}

// To the words of out, those of which x and y have the residues.
pub fn add_words(out: &mut [u8], x: &[u32], y: &[u32])
    requires { (length out.old ≡ 4 * length x.now) × (length y.now ≡ length x.now) × Below P1 x.now × Below P2 y.now }
    ensures { Stored (Added x.now y.now (words out.old)) (length x.now)
        (words out.old) (words out.new) }
{
    for i in 0..x.len() {
        let w = torus::word_at(out, i);
        torus::put_word(out, i, torus::add(w, word(x[i], y[i])));
    }
}
