// The lookups in hidden tables, one in each packing.
ghost use Rattle.std.specs.Prelude.{◌≡◌};
ghost use Rattle.answers.specs.Answers.{number, bound, gates};
ghost use Rattle.tables.specs.declared.Packing.TheVariants.{Horizontal, Vertical};
ghost use Rattle.tables.specs.declared.Visibility.TheVariants.{Hidden};
ghost use Rattle.lookup.specs.Job.{Job};
ghost use Rattle.lookup.specs.Calls as Lookups;

use crate::numbers;
use lookup::Lent;
use tables::Packing::{Horizontal, Vertical};
use tables::Visibility::Hidden;

#[unsafe(no_mangle)]
pub extern "C" fn cikenuma_lookup_hidden(
    n: u64,
    g: u64,
    l: u64,
    w: u64,
    m: u64,
    s: u64,
    d: u64,
    blocks: &[u8],
    amplitudes: &[u8],
    samples: &[u8],
    sample_amplitudes: &[u8],
    sample: &mut [u8],
    work: &mut [u8],
) -> u32
    ensures { (let j : Job = record {
      numbers = record { packing = Horizontal; visibility = Hidden; scheme = record { N = n; g = g; L = l; W = w }; M = m; s = s; d = d };
      blocks = blocks.now;
      amplitudes = amplitudes.now;
      table = samples.now;
      entry_amplitudes = «sample_amplitudes».now;
      sample = sample.old;
      work = work.old;
    } in
        (result ≡ number (Lookups.lookup j)) × (sample.new ≡ Lookups.lookup_sample j) × (work.new ≡ Lookups.lookup_work j)) }
{
    let lent = Lent {
        numbers: numbers(Horizontal, Hidden, n, g, l, w, m, s, d),
        blocks,
        amplitudes,
        table: samples,
        entry_amplitudes: sample_amplitudes,
    };
    answers::number(lookup::lookup(&lent, sample, work))
}

#[unsafe(no_mangle)]
pub extern "C" fn cikenuma_lookup_hidden_bound(
    n: u64,
    g: u64,
    l: u64,
    w: u64,
    m: u64,
    s: u64,
    d: u64,
    blocks: &[u8],
    amplitudes: &[u8],
    samples: &[u8],
    sample_amplitudes: &[u8],
    sample: &[u8],
    work: &[u8],
) -> u64
    ensures { result ≡ bound (Lookups.lookup (record {
      numbers = record { packing = Horizontal; visibility = Hidden; scheme = record { N = n; g = g; L = l; W = w }; M = m; s = s; d = d };
      blocks = blocks.now;
      amplitudes = amplitudes.now;
      table = samples.now;
      entry_amplitudes = «sample_amplitudes».now;
      sample = sample.now;
      work = work.now;
    })) }
{
    let lent = Lent {
        numbers: numbers(Horizontal, Hidden, n, g, l, w, m, s, d),
        blocks,
        amplitudes,
        table: samples,
        entry_amplitudes: sample_amplitudes,
    };
    answers::bound(lookup::lookup_answer(&lent, sample, work))
}

#[unsafe(no_mangle)]
pub extern "C" fn cikenuma_lookup_hidden_gates(
    n: u64,
    g: u64,
    l: u64,
    w: u64,
    m: u64,
    s: u64,
    d: u64,
    blocks: &[u8],
    amplitudes: &[u8],
    samples: &[u8],
    sample_amplitudes: &[u8],
    sample: &[u8],
    work: &[u8],
) -> u64
    ensures { result ≡ gates (Lookups.lookup (record {
      numbers = record { packing = Horizontal; visibility = Hidden; scheme = record { N = n; g = g; L = l; W = w }; M = m; s = s; d = d };
      blocks = blocks.now;
      amplitudes = amplitudes.now;
      table = samples.now;
      entry_amplitudes = «sample_amplitudes».now;
      sample = sample.now;
      work = work.now;
    })) }
{
    let lent = Lent {
        numbers: numbers(Horizontal, Hidden, n, g, l, w, m, s, d),
        blocks,
        amplitudes,
        table: samples,
        entry_amplitudes: sample_amplitudes,
    };
    answers::gates(lookup::lookup_answer(&lent, sample, work))
}

#[unsafe(no_mangle)]
pub extern "C" fn cikenuma_lookup_hidden_vertical(
    n: u64,
    g: u64,
    l: u64,
    w: u64,
    m: u64,
    s: u64,
    d: u64,
    blocks: &[u8],
    amplitudes: &[u8],
    samples: &[u8],
    sample_amplitudes: &[u8],
    sample: &mut [u8],
    work: &mut [u8],
) -> u32
    ensures { (let j : Job = record {
      numbers = record { packing = Vertical; visibility = Hidden; scheme = record { N = n; g = g; L = l; W = w }; M = m; s = s; d = d };
      blocks = blocks.now;
      amplitudes = amplitudes.now;
      table = samples.now;
      entry_amplitudes = «sample_amplitudes».now;
      sample = sample.old;
      work = work.old;
    } in
        (result ≡ number (Lookups.lookup j)) × (sample.new ≡ Lookups.lookup_sample j) × (work.new ≡ Lookups.lookup_work j)) }
{
    let lent = Lent {
        numbers: numbers(Vertical, Hidden, n, g, l, w, m, s, d),
        blocks,
        amplitudes,
        table: samples,
        entry_amplitudes: sample_amplitudes,
    };
    answers::number(lookup::lookup(&lent, sample, work))
}

#[unsafe(no_mangle)]
pub extern "C" fn cikenuma_lookup_hidden_vertical_bound(
    n: u64,
    g: u64,
    l: u64,
    w: u64,
    m: u64,
    s: u64,
    d: u64,
    blocks: &[u8],
    amplitudes: &[u8],
    samples: &[u8],
    sample_amplitudes: &[u8],
    sample: &[u8],
    work: &[u8],
) -> u64
    ensures { result ≡ bound (Lookups.lookup (record {
      numbers = record { packing = Vertical; visibility = Hidden; scheme = record { N = n; g = g; L = l; W = w }; M = m; s = s; d = d };
      blocks = blocks.now;
      amplitudes = amplitudes.now;
      table = samples.now;
      entry_amplitudes = «sample_amplitudes».now;
      sample = sample.now;
      work = work.now;
    })) }
{
    let lent = Lent {
        numbers: numbers(Vertical, Hidden, n, g, l, w, m, s, d),
        blocks,
        amplitudes,
        table: samples,
        entry_amplitudes: sample_amplitudes,
    };
    answers::bound(lookup::lookup_answer(&lent, sample, work))
}

#[unsafe(no_mangle)]
pub extern "C" fn cikenuma_lookup_hidden_vertical_gates(
    n: u64,
    g: u64,
    l: u64,
    w: u64,
    m: u64,
    s: u64,
    d: u64,
    blocks: &[u8],
    amplitudes: &[u8],
    samples: &[u8],
    sample_amplitudes: &[u8],
    sample: &[u8],
    work: &[u8],
) -> u64
    ensures { result ≡ gates (Lookups.lookup (record {
      numbers = record { packing = Vertical; visibility = Hidden; scheme = record { N = n; g = g; L = l; W = w }; M = m; s = s; d = d };
      blocks = blocks.now;
      amplitudes = amplitudes.now;
      table = samples.now;
      entry_amplitudes = «sample_amplitudes».now;
      sample = sample.now;
      work = work.now;
    })) }
{
    let lent = Lent {
        numbers: numbers(Vertical, Hidden, n, g, l, w, m, s, d),
        blocks,
        amplitudes,
        table: samples,
        entry_amplitudes: sample_amplitudes,
    };
    answers::gates(lookup::lookup_answer(&lent, sample, work))
}
