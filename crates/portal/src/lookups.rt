// The lookups in public tables, one in each packing.
ghost use Rattle.std.specs.Prelude.{◌≡◌};
ghost use Rattle.answers.specs.Answers.{number, bound, gates};
ghost use Rattle.tables.specs.declared.Packing.TheVariants.{Horizontal, Vertical};
ghost use Rattle.tables.specs.declared.Visibility.TheVariants.{Public};
ghost use Rattle.lookup.specs.Job.{Job, public_job};
ghost use Rattle.lookup.specs.Calls as Lookups;

use crate::numbers;
use lookup::Lent;
use tables::Packing::{Horizontal, Vertical};
use tables::Visibility::Public;

#[unsafe(no_mangle)]
pub extern "C" fn cikenuma_lookup(
    n: u64,
    g: u64,
    l: u64,
    w: u64,
    m: u64,
    s: u64,
    d: u64,
    blocks: &[u8],
    amplitudes: &[u8],
    classes: &[u8],
    sample: &mut [u8],
    work: &mut [u8],
) -> u32
    ensures { (let j : Job = public_job (record { packing = Horizontal; visibility = Public; scheme = record { N = n; g = g; L = l; W = w }; M = m; s = s; d = d })
        blocks.now amplitudes.now classes.now sample.old work.old in
        (result ≡ number (Lookups.lookup j)) × (sample.new ≡ Lookups.lookup_sample j) × (work.new ≡ Lookups.lookup_work j)) }
{
    let lent = Lent {
        numbers: numbers(Horizontal, Public, n, g, l, w, m, s, d),
        blocks,
        amplitudes,
        table: classes,
        entry_amplitudes: &[],
    };
    answers::number(lookup::lookup(&lent, sample, work))
}

#[unsafe(no_mangle)]
pub extern "C" fn cikenuma_lookup_bound(
    n: u64,
    g: u64,
    l: u64,
    w: u64,
    m: u64,
    s: u64,
    d: u64,
    blocks: &[u8],
    amplitudes: &[u8],
    classes: &[u8],
    sample: &[u8],
    work: &[u8],
) -> u64
    ensures { result ≡ bound (Lookups.lookup (public_job (record { packing = Horizontal; visibility = Public; scheme = record { N = n; g = g; L = l; W = w }; M = m; s = s; d = d })
        blocks.now amplitudes.now classes.now sample.now work.now)) }
{
    let lent = Lent {
        numbers: numbers(Horizontal, Public, n, g, l, w, m, s, d),
        blocks,
        amplitudes,
        table: classes,
        entry_amplitudes: &[],
    };
    answers::bound(lookup::lookup_answer(&lent, sample, work))
}

#[unsafe(no_mangle)]
pub extern "C" fn cikenuma_lookup_gates(
    n: u64,
    g: u64,
    l: u64,
    w: u64,
    m: u64,
    s: u64,
    d: u64,
    blocks: &[u8],
    amplitudes: &[u8],
    classes: &[u8],
    sample: &[u8],
    work: &[u8],
) -> u64
    ensures { result ≡ gates (Lookups.lookup (public_job (record { packing = Horizontal; visibility = Public; scheme = record { N = n; g = g; L = l; W = w }; M = m; s = s; d = d })
        blocks.now amplitudes.now classes.now sample.now work.now)) }
{
    let lent = Lent {
        numbers: numbers(Horizontal, Public, n, g, l, w, m, s, d),
        blocks,
        amplitudes,
        table: classes,
        entry_amplitudes: &[],
    };
    answers::gates(lookup::lookup_answer(&lent, sample, work))
}

#[unsafe(no_mangle)]
pub extern "C" fn cikenuma_lookup_vertical(
    n: u64,
    g: u64,
    l: u64,
    w: u64,
    m: u64,
    s: u64,
    d: u64,
    blocks: &[u8],
    amplitudes: &[u8],
    classes: &[u8],
    sample: &mut [u8],
    work: &mut [u8],
) -> u32
    ensures { (let j : Job = public_job (record { packing = Vertical; visibility = Public; scheme = record { N = n; g = g; L = l; W = w }; M = m; s = s; d = d })
        blocks.now amplitudes.now classes.now sample.old work.old in
        (result ≡ number (Lookups.lookup j)) × (sample.new ≡ Lookups.lookup_sample j) × (work.new ≡ Lookups.lookup_work j)) }
{
    let lent = Lent {
        numbers: numbers(Vertical, Public, n, g, l, w, m, s, d),
        blocks,
        amplitudes,
        table: classes,
        entry_amplitudes: &[],
    };
    answers::number(lookup::lookup(&lent, sample, work))
}

#[unsafe(no_mangle)]
pub extern "C" fn cikenuma_lookup_vertical_bound(
    n: u64,
    g: u64,
    l: u64,
    w: u64,
    m: u64,
    s: u64,
    d: u64,
    blocks: &[u8],
    amplitudes: &[u8],
    classes: &[u8],
    sample: &[u8],
    work: &[u8],
) -> u64
    ensures { result ≡ bound (Lookups.lookup (public_job (record { packing = Vertical; visibility = Public; scheme = record { N = n; g = g; L = l; W = w }; M = m; s = s; d = d })
        blocks.now amplitudes.now classes.now sample.now work.now)) }
{
    let lent = Lent {
        numbers: numbers(Vertical, Public, n, g, l, w, m, s, d),
        blocks,
        amplitudes,
        table: classes,
        entry_amplitudes: &[],
    };
    answers::bound(lookup::lookup_answer(&lent, sample, work))
}

#[unsafe(no_mangle)]
pub extern "C" fn cikenuma_lookup_vertical_gates(
    n: u64,
    g: u64,
    l: u64,
    w: u64,
    m: u64,
    s: u64,
    d: u64,
    blocks: &[u8],
    amplitudes: &[u8],
    classes: &[u8],
    sample: &[u8],
    work: &[u8],
) -> u64
    ensures { result ≡ gates (Lookups.lookup (public_job (record { packing = Vertical; visibility = Public; scheme = record { N = n; g = g; L = l; W = w }; M = m; s = s; d = d })
        blocks.now amplitudes.now classes.now sample.now work.now)) }
{
    let lent = Lent {
        numbers: numbers(Vertical, Public, n, g, l, w, m, s, d),
        blocks,
        amplitudes,
        table: classes,
        entry_amplitudes: &[],
    };
    answers::gates(lookup::lookup_answer(&lent, sample, work))
}
