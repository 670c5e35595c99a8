// The blind rotation of a sample by the selectors that rotate, and the whole lookup: the tree, and then the rotation. Samples have k
// masks. The sample, the work slice and the ledger are arguments of their own, as in the tree.
ghost use Rattle.std.specs.Prelude.{◌≡◌, suc, ◌+◌, ◌*◌, ◌/◌, ◌^◌, ◌≤◌, ◌<◌, length, get_or, replicate};
ghost use Rattle.torus.specs.Bytes.{words};
ghost use Rattle.trgsw.specs.Parameters.{sample_size, block_size, parameters};
ghost use Rattle.trgsw.specs.External.{charge};
ghost use Rattle.tables.specs.Numbers.{rotations, levels, gate_count};
ghost use Rattle.trees.specs.LookedUp as LookedUp;
ghost use Rattle.tables.specs.Table as Table;
ghost use Rattle.tables.specs.Inner.{Declared};
ghost use Rattle.lookup.specs.Inner as Inner;

use crate::Lent;
use answers::Ledger;
use tables::Lawful;

// Rotation step i: the CMux by selector i of the sample and the sample times X^(-2^i), which is made at the front of work.
fn step(sample: &mut [u8], work: &mut [u8], lent: &Lent, i: usize, ledger: Ledger) -> Ledger
    requires { let x = lent.now.numbers in
        Inner.Selectors x (suc i) lent.now.amplitudes.now × (2 ^ i ≤ x.scheme.N)
        × (length sample.old ≡ 4 * sample_size (parameters x.scheme)) × (length sample.old ≤ length work.old)
        × (4 * (suc i * block_size (parameters x.scheme)) ≤ length lent.now.blocks.now)
        × (ledger.bound + charge (parameters x.scheme) (get_or (words lent.now.amplitudes.now) i 0) < 2 ^ 64)
        × (ledger.gates + 1 < 2 ^ 64) }
    ensures { (words sample.new
        ≡ LookedUp.rotation_step (parameters lent.now.numbers.scheme) (words lent.now.blocks.now) i (words sample.old))
        × (result.bound ≡ ledger.bound
        + charge (parameters lent.now.numbers.scheme) (get_or (words lent.now.amplitudes.now) i 0))
        × (result.gates ≡ ledger.gates + 1) }
{
    let p = lent.numbers.scheme.parameter_set();
    let own = sample.len();
    let places = tables::power(i as u64) as usize;
    trlwe::rotate(&mut work[0..own], sample, p.k, p.N, places);
    crate::tree::join(sample, work, lent, i, ledger)
}

// The blind rotation by the first r selectors, lowest first.
fn blind_rotation(
    sample: &mut [u8],
    work: &mut [u8],
    lent: &Lent,
    r: usize,
    ledger: Ledger,
) -> Ledger
    requires { let x = lent.now.numbers in
        Inner.Selectors x r lent.now.amplitudes.now × (2 ^ r ≤ x.scheme.N)
        × (length sample.old ≡ 4 * sample_size (parameters x.scheme)) × (length sample.old ≤ length work.old)
        × (4 * (r * block_size (parameters x.scheme)) ≤ length lent.now.blocks.now)
        × (ledger.bound + LookedUp.charges (parameters x.scheme) (words lent.now.amplitudes.now) r < 2 ^ 64)
        × (ledger.gates + r < 2 ^ 64) }
    ensures { (words sample.new
        ≡ LookedUp.blind_rotation (parameters lent.now.numbers.scheme) (words lent.now.blocks.now) r (words sample.old))
        × (result.bound ≡ ledger.bound + LookedUp.charges (parameters lent.now.numbers.scheme) (words lent.now.amplitudes.now) r)
        × (result.gates ≡ ledger.gates + r) }
{
    let mut raised = ledger;
    for i in 0..r {
        raised = step(sample, work, lent, i, raised);
    }
    raised
}

// The whole lookup; work is cleared after it. The bound begins at the largest amplitude of the table's entries.
pub fn evaluate(sample: &mut [u8], work: &mut [u8], lent: &Lent) -> Ledger
    requires { let x = lent.now.numbers in
        Inner.Selectors x x.d lent.now.amplitudes.now × Declared x lent.now.entry_amplitudes.now
        × Inner.Run x (levels x) 0 (length sample.old) (length work.old) (length lent.now.blocks.now) lent.now.table.now
        × (length sample.old ≤ length work.old) × (4 * (length work.old / 4) ≡ length work.old) }
    ensures { let x = lent.now.numbers in
        (words sample.new ≡ LookedUp.looked_up (parameters x.scheme) (words lent.now.blocks.now)
        (rotations x) (Table.table_entry x (words lent.now.table.now) (words lent.now.entry_amplitudes.now)) x.d)
        × (words work.new ≡ replicate (length work.old / 4) 0)
        × (result.bound ≡ LookedUp.looked_up_bound (parameters x.scheme) (words lent.now.amplitudes.now)
        (rotations x) (Table.table_entry x (words lent.now.table.now) (words lent.now.entry_amplitudes.now)) x.d)
        × (result.gates ≡ gate_count x) }
{
    let x = Lawful {
        numbers: lent.numbers,
    };
    let begun = tables::entries::largest_amplitude(lent.entry_amplitudes, x);
    let turns = x.rotations();
    let found = crate::tree::tree(
        sample,
        work,
        lent,
        (lent.numbers.d - turns) as usize,
        0,
        Ledger {
            bound: begun,
            gates: 0,
        },
    );
    let ledger = blind_rotation(sample, work, lent, turns as usize, found);
    torus::clear_words(work);
    ledger
}
