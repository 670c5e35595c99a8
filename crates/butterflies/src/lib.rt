// Butterflies modulo a prime p below 2^30, and passes of them over the nodes of a number-theoretic transform. Numbers stay below 4·p on
// the way down and below 2·p on the way up, so that a butterfly reduces one number at most.
#![tactic(auto)]

ghost use Rattle.std.specs.Prelude.{◌≡◌, ℕ, ◌+◌, ◌*◌, ◌-◌, ◌<◌, ◌≤◌, length};
ghost use Rattle.butterflies.specs.Same.{Same};
ghost use Rattle.butterflies.specs.Butterflies.{Ready, Below, Stored, Reduced, Butterfly, Pass, down_low, down_high, up_low, up_high};

// A twiddle factor w below a prime p, with its quotient for Shoup's product: v is w·2^32/p.
#[derive(Clone, Copy)]
pub struct Factor {
    pub w: u32,
    pub v: u32,
    pub p: u32,
    pub ghost ready: { Ready p w v },
}

impl Factor {
    // y·w modulo p, below 2·p, by Shoup's product.
    pub fn shoup(self, y: u32) -> u32
        ensures { (result < self.p + self.p) × Same self.p result (y * self.w) }
    {
        let q = (y as u64) * (self.v as u64) / 4294967296;
        ((y as u64) * (self.w as u64) - q * (self.p as u64)) as u32
    }
}

// x modulo p, from below 4·p to below 2·p: of x and x - 2·p the smaller, since a difference below 0 wraps. p is a number here, and no type
// of its own: up to the tables of twiddle factors a prime is any number below 2^30.
pub fn fold(x: u32, p: u32) -> u32
    requires { (p < 1073741824) × (x < 4 * p) }
    ensures { (result < p + p) × Same p result x }
{
    x.min(x.wrapping_sub(p + p))
}

// x modulo p, from below 2·p to below p.
pub fn reduced(x: u32, p: u32) -> u32
    requires { x < p + p }
    ensures { (result < p) × Same p result x }
{
    x.min(x.wrapping_sub(p))
}

// Every element modulo p, from below 4·p to below p.
pub fn reduce(a: &mut [u32], p: u32)
    requires { (p < 1073741824) × Below (4 * p) a.old }
    ensures { Stored (Reduced p a.old) (length a.old) a.old a.new }
{
    for x in a.iter_mut() {
        *x = reduced(fold(*x, p), p);
    }
}

// A way through a transform, by its butterfly. low w and high p w are what it makes of two numbers by a factor w, top p is the multiple of p
// below which the numbers of a list stay, and turn m j the one of a level's m factors that node j takes.
pub trait Way {
    ghost low: { ℕ → ℕ → ℕ → ℕ };

    ghost high: { ℕ → ℕ → ℕ → ℕ → ℕ };

    ghost top: { ℕ → ℕ };

    ghost turn: { ℕ → ℕ → ℕ };

    // The butterfly of the elements at i and i + h.
    fn butterfly(a: &mut [u32], i: usize, h: usize, factor: Factor)
        requires { (0 < h) × (i + h < length a.old) × Below (top factor.p) a.old }
        ensures { Butterfly factor.p (low factor.w) (high factor.p factor.w) i (i + h) a.old a.new × Below (top factor.p) a.new };

    // The factor of node j of a level of m nodes, counted from the level's first one.
    fn order(m: usize, j: usize) -> usize
        requires { j < m }
        ensures { (result ≡ turn m j) × (result < m) };
}

// The way down, by the butterfly of Cooley and Tukey: x + w·y and x - w·y.
pub struct CooleyTukey;

impl Way for CooleyTukey {
    ghost low = { down_low };

    ghost high = { down_high };

    ghost top = { λ p. 4 * p };

    ghost turn = { λ m j. j };

    fn butterfly(a: &mut [u32], i: usize, h: usize, factor: Factor) {
        let m = factor.p + factor.p;
        let x = fold(a[i], factor.p);
        let y = factor.shoup(a[i + h]);
        a[i] = x + y;
        a[i + h] = x + (m - y);
    }

    fn order(_m: usize, j: usize) -> usize {
        j
    }
}

// The way up, by that of Gentleman and Sande: x + y and w·(y - x). w is minus the inverse of the factor by which they were made, and the
// factors of a level are taken from the last one on.
pub struct GentlemanSande;

impl Way for GentlemanSande {
    ghost low = { λ w. up_low };

    ghost high = { up_high };

    ghost top = { λ p. p + p };

    ghost turn = { λ m j. m - 1 - j };

    fn butterfly(a: &mut [u32], i: usize, h: usize, factor: Factor) {
        let m = factor.p + factor.p;
        let x = a[i];
        let y = a[i + h];
        a[i] = fold(x + y, factor.p);
        a[i + h] = factor.shoup(y + (m - x));
    }

    fn order(m: usize, j: usize) -> usize {
        m - 1 - j
    }
}

// The butterflies of the node of 2·h elements from s on.
pub fn pass<W: Way>(a: &mut [u32], s: usize, h: usize, factor: Factor)
    requires { (s + h + h ≤ length a.old) × Below (W.top factor.p) a.old }
    ensures { Pass factor.p (W.low factor.w) (W.high factor.p factor.w) s h h a.old a.new × Below (W.top factor.p) a.new }
{
    for j in 0..h {
        W::butterfly(a, s + j, h, factor);
    }
}
