// The levels of a number-theoretic transform modulo a prime p below 2^30: passes over all nodes of a level, by the fastest loop for their
// size.
#![tactic(auto)]

ghost use Rattle.std.specs.Prelude.{◌≡◌, ◌+◌, ◌*◌, ◌<◌, ◌≤◌, length, get_or};
ghost use Rattle.butterflies.specs.Butterflies.{Below, Prepared, WayLevel};

use butterflies::{Factor, Way};

// The factors of a level of m nodes and their quotients: entries m to 2·m - 1 of two lent tables. They are two, and not one of pairs, since
// the rule of the tree is said of the list of roots alone.
#[derive(Clone, Copy)]
pub struct Factors<'a> {
    pub p: u32,
    pub m: usize,
    pub roots: &'a [u32],
    pub quotients: &'a [u32],
    pub ghost prepared: { Prepared p m roots.now quotients.now },
}

impl<'a> Factors<'a> {
    // The factor of node j.
    fn of_node<W: Way>(&self, j: usize) -> Factor
        requires { j < self.now.m }
        ensures { (result.p ≡ self.now.p) × (result.w ≡ get_or self.now.roots.now (self.now.m + W.turn self.now.m j) 0) }
    {
        let i = self.m + W::order(self.m, j);
        Factor {
            w: self.roots[i],
            v: self.quotients[i],
            p: self.p,
        }
    }
}

// A level of nodes of 2·h elements each.
#[inline(always)]
fn level_of_passes<W: Way>(a: &mut [u32], h: usize, factors: &Factors)
    requires { (let f = factors.now in (0 < f.m) × (f.m * (h + h) ≤ length a.old) × Below (W.top f.p) a.old) }
    ensures { (let f = factors.now in WayLevel W.low W.high W.turn f.p f.m h f.roots.now a.old a.new × Below (W.top f.p) a.new) }
{
    let l = h + h;
    for j in 0..factors.m {
        butterflies::pass::<W>(a, j * l, h, factors.of_node::<W>(j));
    }
}

// The same, by the fastest loop for the size of the nodes. A pass over two or four elements costs more than its butterflies: of a level of
// such nodes, whose size it is told, the compiler makes one loop.
pub fn level<W: Way>(a: &mut [u32], h: usize, factors: &Factors)
    requires { (let f = factors.now in (0 < f.m) × (f.m * (h + h) ≤ length a.old) × Below (W.top f.p) a.old) }
    ensures { (let f = factors.now in WayLevel W.low W.high W.turn f.p f.m h f.roots.now a.old a.new × Below (W.top f.p) a.new) }
{
    match h {
        1 => level_of_passes::<W>(a, 1, factors),
        2 => level_of_passes::<W>(a, 2, factors),
        _ => level_of_passes::<W>(a, h, factors),
    }
}
