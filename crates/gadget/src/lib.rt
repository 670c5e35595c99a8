// The signed gadget digits of a word: base 2^g, l digits, digit 1 first, by shifts by g and masks.
#![tactic(auto)]

ghost use Rattle.std.specs.Prelude.{◌≡◌, ◌++◌, ◌-◌, ◌*◌, ◌/◌, ◌%◌, ◌^◌, ◌≤◌, ◌<◌, length, replicate};
ghost use Rattle.torus.specs.Word as W;
ghost use Rattle.torus.specs.Bytes.{words};
ghost use Rattle.gadget.specs.Digits as D;
ghost use Rattle.gadget.specs.Decomposition as Decomposition;

// Whether a word has room for l digits of base 2^g. l is tested before the product, so that nothing wraps.
pub fn lawful(g: u64, l: u64) -> bool
    ensures { result ≡ D.is_lawful g l }
{
    1 <= g && g <= 16 && 1 <= l && l <= 32 && g * l <= 32
}

// 2^k: a shift, whose bound is stated once.
fn pow2(k: u32) -> u32
    requires { k < 32 }
    ensures { result ≡ 2 ^ k }
{
    1 << k
}

// Half of the base. This, step and cut ask of a base what they need, which is less than a Gadget tells of it: callers that have no
// number of digits have these.
pub fn half(g: u32) -> u32
    requires { (1 ≤ g) × (g ≤ 16) }
    ensures { result ≡ D.half g }
{
    pow2(g - 1)
}

// h_j, step j of the gadget.
pub fn step(g: u32, j: u32) -> u32
    requires { (1 ≤ g) × (g ≤ 16) × (1 ≤ j) × (g * j ≤ 32) }
    ensures { result ≡ D.step g j }
{
    pow2(32 - g * j)
}

// The last place of q in base 2^g: its g low bits.
fn low(q: u32, g: u32) -> u32
    requires { (1 ≤ g) × (g ≤ 16) }
    ensures { result ≡ q % 2 ^ g }
{
    q & (pow2(g) - 1)
}

// Digit j of the word from which t was made by adding the offset: place j, less half of the base.
pub fn cut(t: u32, g: u32, j: u32) -> u32
    requires { (1 ≤ g) × (g ≤ 16) × (1 ≤ j) × (g * j ≤ 32) }
    ensures { result ≡ D.signed g t j }
{
    let place = low(t >> (32 - g * j), g);
    let half = half(g);
    torus::sub(place, half)
}

// 1 where the last place of q is half of the base or more: the highest bit of that place.
fn carry(q: u32, g: u32) -> u32
    requires { (1 ≤ g) × (g ≤ 16) }
    ensures { result ≡ Decomposition.carry g q }
{
    low(q, g) >> (g - 1)
}

// The last place of q as a digit: less the base, where there is a carry.
fn centred_remainder(q: u32, g: u32) -> u32
    requires { (1 ≤ g) × (g ≤ 16) }
    ensures { result ≡ Decomposition.centred_remainder g q }
{
    torus::sub(low(q, g), carry(q, g) << g)
}

// What is left over of q for the place before, when that digit has been taken.
fn left_over(q: u32, g: u32) -> u32
    requires { (1 ≤ g) × (g ≤ 16) }
    ensures { result ≡ Decomposition.left_over g q }
{
    let carry = carry(q, g);
    (q >> g) + carry
}

// A gadget, of base 2^g and l digits, for which a word has room. In the definitions l is L.
#[derive(Clone, Copy)]
pub struct Gadget {
    pub g: u32,
    pub l: u32,
    pub ghost lawful: { D.Lawful g l },
}

impl Gadget {
    // E: half of the last step, or 0 where the last step is 1.
    pub fn precision(self) -> u32
        ensures { result ≡ D.precision self.g self.l }
    {
        let width = self.g * self.l;
        if width == 32 { 0 } else { pow2(31 - width) }
    }

    // What is added to a word before its digits are cut out of it: E, to round, and half of the base at each place.
    pub fn offset(self) -> u32
        ensures { result ≡ D.offset self.g self.l }
    {
        let half = half(self.g);
        let mut o = self.precision();
        for i in 0..self.l {
            o += half << (32 - self.g * (i + 1));
        }
        o
    }

    // The multiple of the last step that is closest to w, ties up, modulo 2^32. Half of the step is added, and what is then below the step
    // shifted out.
    pub fn closest_multiple(self, w: u32) -> u32
        ensures { result ≡ Decomposition.closest_multiple self.g self.l w }
    {
        let step = step(self.g, self.l);
        let below = 32 - self.g * self.l;
        torus::add(w, step >> 1) >> below << below
    }

    // All digits of w, digit 1 first, and zeros after them: the closest multiple first, then digit after digit, the last one first. Products
    // don't call this: they take one digit of every word, by write_digits. The programs `exercises` and `vectors` do.
    pub fn decompose(self, w: u32) -> [u32; 32]
        ensures { result ≡ Decomposition.digits self.g self.l w ++ replicate (32 - self.l) 0 }
    {
        let mut out = [0u32; 32];
        let mut q = self.closest_multiple(w) >> (32 - self.g * self.l);
        for i in (0..self.l as usize).rev() {
            out[i] = centred_remainder(q, self.g);
            q = left_over(q, self.g);
        }
        out
    }

    // The words of out become the digit polynomial of x: digit j of each of its words, by one addition, so that no digit waits for a carry.
    // Both definitions of the digits are met.
    pub fn write_digits(self, out: &mut [u8], x: &[u8], j: u32)
        requires { (1 ≤ j) × (j ≤ self.l) × (length x.now ≡ length out.old) }
        ensures polynomial { words out.new ≡ D.digit_polynomial (length out.old / 4) self.g self.l j (words x.now) }
        ensures decomposed { words out.new ≡ Decomposition.digit_polynomial (length out.old / 4) self.g self.l j (words x.now) }
    {
        let o = self.offset();
        for i in 0..out.len() / 4 {
            let t = torus::add(torus::word_at(x, i), o);
            torus::put_word(out, i, cut(t, self.g, j));
        }
    }
}
