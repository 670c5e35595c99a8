// The entries of a table: trivial samples of the classes of a public one, or the samples of a hidden one.
ghost use Rattle.std.specs.Prelude.{◌≡◌, ℕ, ◌+◌, ◌*◌, ◌/◌, ◌^◌, ◌≤◌, ◌<◌, length, get_or};
ghost use Rattle.torus.specs.Bytes.{words};
ghost use Rattle.trgsw.specs.Parameters.{sample_size, parameters};
ghost use Rattle.tables.specs.declared.Visibility.TheVariants.{Public};
ghost use Rattle.tables.specs.Numbers.{sample_classes, table_samples};
ghost use Rattle.trees.specs.LookedUp as LookedUp;
ghost use Rattle.tables.specs.Table as Table;
ghost use Rattle.tables.specs.Inner as Inner;

use crate::{Lawful, Visibility};

// The words that are lent of each sample of a table.
fn entry_words(x: Lawful) -> u64
    ensures { (result ≡ Table.entry_words x.numbers.visibility x.numbers) × (result ≤ 5120) }
{
    match x.numbers.visibility {
        Visibility::Public => x.sample_classes(),
        Visibility::Hidden => x.sample_size(),
    }
}

// The trivial sample of lent classes.
fn write_classes(sample: &mut [u8], classes: &[u8], x: Lawful)
    requires { (length sample.old ≡ 4 * sample_size (parameters x.numbers.scheme)) × (length classes.now ≡ 4 * sample_classes x.numbers)
        × ((i : ℕ) → i < sample_classes x.numbers → get_or (words classes.now) i 0 < x.numbers.M) }
    ensures { words sample.new ≡ Table.entry_sample Public x.numbers (words classes.now) }
{
    let p = x.numbers.scheme.parameter_set();
    let encoding = trlwe::Encoding { m: x.numbers.M };
    let message = trlwe::Message { encoding, classes };
    trlwe::write_trivial(sample, &message, p.k, p.N);
}

// A sample of a table, of what is lent of it.
fn write_lent(sample: &mut [u8], lent: &[u8], x: Lawful)
    requires { (length sample.old ≡ 4 * sample_size (parameters x.numbers.scheme))
        × (length lent.now ≡ 4 * Table.entry_words x.numbers.visibility x.numbers) × Inner.Below x.numbers lent.now }
    ensures { words sample.new ≡ Table.entry_sample x.numbers.visibility x.numbers (words lent.now) }
{
    match x.numbers.visibility {
        Visibility::Public => write_classes(sample, lent, x),
        Visibility::Hidden => torus::copy_words(sample, lent),
    }
}

// The sample of entry t.
pub fn write_entry(sample: &mut [u8], table: &[u8], x: Lawful, t: usize)
    requires { Inner.Leaf x.numbers t (length sample.old) table.now }
    ensures { words sample.new ≡ Table.table_sample x.numbers (words table.now) t }
{
    let size = 4 * entry_words(x) as usize;
    let at = t * size;
    write_lent(sample, &table[at..at + size], x);
}

// The largest of the words of s. That of their magnitudes, in answers, goes by another definition.
fn largest_word(s: &[u8]) -> u64
    ensures { (result ≡ LookedUp.largest (length s.now / 4) (λ i. get_or (words s.now) i 0)) × (result < 2 ^ 32) }
{
    let mut most = 0u64;
    for i in 0..s.len() / 4 {
        most = most.max(torus::word_at(s, i) as u64);
    }
    most
}

// The largest declared amplitude of an entry: 0 of a public table.
pub fn largest_amplitude(declared: &[u8], x: Lawful) -> u64
    requires { Inner.Declared x.numbers declared.now }
    ensures { (result ≡ LookedUp.largest (table_samples x.numbers) (λ t. Table.amplitude_of x.numbers.visibility (words declared.now) t)) × (result < 2 ^ 32) }
{
    match x.numbers.visibility {
        Visibility::Public => 0,
        Visibility::Hidden => largest_word(declared),
    }
}
