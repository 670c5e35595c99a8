// Words of the discrete torus, and words in lent byte slices.
#![tactic(auto)]

ghost use Rattle.std.specs.Prelude.{◌≡◌, ◌+◌, ◌*◌, ◌/◌, ◌≤◌, length, replicate, slice_index, slice_set};
ghost use Rattle.torus.specs.Sum.{tabulate};
ghost use Rattle.torus.specs.Word as W;
ghost use Rattle.torus.specs.Bytes.{words};

// The sum of two words.
pub fn add(a: u32, b: u32) -> u32
    ensures { result ≡ W.add a b }
{
    a.wrapping_add(b)
}

// The difference of two words.
pub fn sub(a: u32, b: u32) -> u32
    ensures { result ≡ W.sub a b }
{
    a.wrapping_sub(b)
}

// The product of two words: the whole product fits 64 bits.
pub fn mul(a: u32, b: u32) -> u32
    ensures { result ≡ W.mul a b }
{
    ((a as u64 * b as u64) % 4294967296) as u32
}

// The absolute value of a word's centred reading.
pub fn magnitude(w: u32) -> u32
    ensures { result ≡ W.magnitude w }
{
    if w < 2147483648 { w } else { sub(0, w) }
}

// The magnitude of the difference of two words.
pub fn distance(a: u32, b: u32) -> u32
    ensures { result ≡ W.distance a b }
{
    magnitude(sub(a, b))
}

// Word i of a lent slice.
pub fn word_at(s: &[u8], i: usize) -> u32
    requires { 4 * i + 4 ≤ length s.now }
    ensures { result ≡ slice_index (words s.now) i }
{
    u32::from_le_bytes([s[4 * i], s[4 * i + 1], s[4 * i + 2], s[4 * i + 3]])
}

// Word i of a lent slice becomes w.
pub fn put_word(s: &mut [u8], i: usize, w: u32)
    requires { 4 * i + 4 ≤ length s.old }
    ensures { words s.new ≡ slice_set (words s.old) i w }
{
    let [a, b, c, d] = w.to_le_bytes();
    s[4 * i] = a;
    s[4 * i + 1] = b;
    s[4 * i + 2] = c;
    s[4 * i + 3] = d;
}

// The words of out become those of a. By a loop of its own: `copy_from_slice` calls `memmove`, which whoever links the archive for C would
// have to bring.
pub fn copy_words(out: &mut [u8], a: &[u8])
    requires { length a.now ≡ length out.old }
    ensures { words out.new ≡ words a.now }
{
    for i in 0..out.len() / 4 {
        put_word(out, i, word_at(a, i));
    }
}

// The words of out become 0.
pub fn clear_words(out: &mut [u8])
    ensures { words out.new ≡ replicate (length out.old / 4) 0 }
{
    out.fill(0);
}

// From each word of out, the word of a is taken away.
pub fn sub_words(out: &mut [u8], a: &[u8])
    requires { length a.now ≡ length out.old }
    ensures { words out.new ≡ tabulate (length out.old / 4)
        (λ i. W.sub (slice_index (words out.old) i) (slice_index (words a.now) i)) }
{
    for i in 0..out.len() / 4 {
        let w = word_at(out, i);
        put_word(out, i, sub(w, word_at(a, i)));
    }
}
