// The tree of CMuxes over the samples of a table, depth first. Samples have k masks. The sample, the work slice and the ledger stay
// arguments of their own: each level lends a part of the work slice on, and each branch begins with a ledger of its own.
ghost use Rattle.std.specs.Prelude.{◌≡◌, suc, ◌+◌, ◌*◌, ◌/◌, ◌^◌, ◌≤◌, ◌<◌, length, get_or, take, drop, ◌++◌};
ghost use Rattle.torus.specs.Bytes.{words};
ghost use Rattle.trgsw.specs.Parameters.{sample_size, block_size, parameters};
ghost use Rattle.trgsw.specs.External.{cmux_sample, charge};
ghost use Rattle.tables.specs.Numbers.{rotations};
ghost use Rattle.trees.specs.LookedUp as LookedUp;
ghost use Rattle.tables.specs.Table as Table;
ghost use Rattle.lookup.specs.Inner as Inner;

use crate::Lent;
use answers::Ledger;
use tables::Lawful;

// The charge of a CMux by selector i. That the numbers are lawful is a part of `Selectors`; `Lawful` tells it to the functions of tables.
fn charge_of(lent: &Lent, i: usize) -> u64
    requires { Inner.Selectors lent.now.numbers (suc i) lent.now.amplitudes.now }
    ensures { result ≡ charge (parameters lent.now.numbers.scheme) (get_or (words lent.now.amplitudes.now) i 0) }
{
    let x = Lawful {
        numbers: lent.numbers,
    };
    let amplitude = torus::word_at(lent.amplitudes, i) as u64;
    x.bounded().charge(amplitude)
}

// The charges of the first d selectors, added up.
pub fn charges(lent: &Lent, d: usize) -> u64
    requires { Inner.Selectors lent.now.numbers d lent.now.amplitudes.now }
    ensures { result ≡ LookedUp.charges (parameters lent.now.numbers.scheme) (words lent.now.amplitudes.now) d }
{
    let mut sum = 0;
    for i in 0..d {
        sum += charge_of(lent, i);
    }
    sum
}

// Keeps a sample at the front of work.
fn keep(work: &mut [u8], sample: &[u8])
    requires { (4 * (length sample.now / 4) ≡ length sample.now) × (length sample.now ≤ length work.old) }
    ensures { words work.new
        ≡ words sample.now ++ drop (length sample.now / 4) (words work.old) }
{
    let own = sample.len();
    torus::copy_words(&mut work[0..own], sample);
}

// The CMux by selector i of two samples: sample0 in `sample`, where the result goes, and sample1 at the front of work. The ledger is
// raised by its charge.
pub fn join(sample: &mut [u8], work: &mut [u8], lent: &Lent, i: usize, ledger: Ledger) -> Ledger
    requires { let x = lent.now.numbers in
        Inner.Selectors x (suc i) lent.now.amplitudes.now
        × (length sample.old ≡ 4 * sample_size (parameters x.scheme)) × (length sample.old ≤ length work.old)
        × (4 * (suc i * block_size (parameters x.scheme)) ≤ length lent.now.blocks.now)
        × (ledger.bound + charge (parameters x.scheme) (get_or (words lent.now.amplitudes.now) i 0) < 2 ^ 64)
        × (ledger.gates + 1 < 2 ^ 64) }
    ensures { let x = lent.now.numbers in
        (words sample.new ≡ cmux_sample (parameters x.scheme)
        (LookedUp.selector (parameters x.scheme) i (words lent.now.blocks.now)) (words sample.old)
        (take (sample_size (parameters x.scheme)) (words work.old)))
        × (result.bound ≡ ledger.bound
        + charge (parameters x.scheme) (get_or (words lent.now.amplitudes.now) i 0))
        × (result.gates ≡ ledger.gates + 1) }
{
    let own = sample.len();
    let x = Lawful {
        numbers: lent.numbers,
    };
    let size = 4 * x.block_size() as usize;
    let at = i * size;
    gates::cmux::cmux_in_place(
        sample,
        &mut work[0..own],
        &lent.blocks[at..at + size],
        lent.numbers.scheme.parameter_set(),
    );
    ledger.raise(charge_of(lent, i))
}

// Run t of level d. A level keeps one sample at the front of work, and lends the rest to the level below, whose runs are joined by the
// selector of that number among those that do not rotate. Each run hands a ledger back: run 2t + 1 `odd`, run 2t `even`.
pub fn tree(
    sample: &mut [u8],
    work: &mut [u8],
    lent: &Lent,
    d: usize,
    t: usize,
    ledger: Ledger,
) -> Ledger
    requires { let x = lent.now.numbers in
        Inner.Selectors x (rotations x + d) lent.now.amplitudes.now
        × Inner.Run x d t (length sample.old) (length work.old) (length lent.now.blocks.now) lent.now.table.now
        × (ledger.bound + LookedUp.charges (parameters x.scheme) (words lent.now.amplitudes.now) (rotations x + d) < 2 ^ 64)
        × (ledger.gates + 2 ^ d < 2 ^ 64) }
    ensures { let x = lent.now.numbers in
        (words sample.new ≡ LookedUp.tree_sample (parameters x.scheme) (words lent.now.blocks.now)
        (rotations x) (Table.table_sample x (words lent.now.table.now)) d t)
        × (result.bound + LookedUp.charges (parameters x.scheme) (words lent.now.amplitudes.now) (rotations x)
        ≡ ledger.bound + LookedUp.charges (parameters x.scheme) (words lent.now.amplitudes.now) (rotations x + d))
        × (result.gates + 1 ≡ ledger.gates + 2 ^ d) }
{
    let x = Lawful {
        numbers: lent.numbers,
    };
    if d == 0 {
        tables::entries::write_entry(sample, lent.table, x, t);
        return ledger;
    }
    let own = sample.len();
    let below = d - 1;
    let odd = tree(sample, &mut work[own..], lent, below, 2 * t + 1, ledger);
    keep(work, sample);
    let even = tree(
        sample,
        &mut work[own..],
        lent,
        below,
        2 * t,
        odd.beside(ledger),
    );
    let selector = x.rotations() as usize + below;
    join(sample, work, lent, selector, even)
}
