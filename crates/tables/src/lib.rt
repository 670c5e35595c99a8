// The numbers of a lookup, and its table: packings, kinds of table, sizes, and the samples of entries. Samples have k masks.
#![tactic(auto)]

pub mod checks;
pub mod entries;

ghost use Rattle.std.specs.Prelude.{◌≡◌, ◌^◌, ◌≤◌};
ghost use Rattle.trgsw.specs.Parameters.{parameters, sample_size, block_size};
ghost use Rattle.tables.specs.Numbers.{LawfulNumbers, deepest, table_size, table_samples, table_words, declared_words, rotations, sample_classes, gate_count};

use trgsw::{Bounded, Scheme};

// The most selectors in each packing.
pub const HORIZONTAL_SELECTORS: u64 = 10;

pub const VERTICAL_SELECTORS: u64 = 16;

// How a table stands in samples: an entry of s classes in each, or consecutive entries of one class, as many as there is room for. The
// thesis has these names.
#[derive(Clone, Copy, Debug, PartialEq, Eq)]
pub enum Packing {
    Horizontal,
    Vertical,
}

// Whether a table is public classes, or samples that hide them.
#[derive(Clone, Copy, Debug, PartialEq, Eq)]
pub enum Visibility {
    Public,
    Hidden,
}

// The packing, the kind of table and the numbers of a lookup, by document 01's letters: what it is told of its parameter set, M classes, s of
// them in an entry, and d selectors.
#[derive(Clone, Copy)]
pub struct Numbers {
    pub packing: Packing,
    pub visibility: Visibility,
    pub scheme: Scheme,
    pub M: u64,
    pub s: u64,
    pub d: u64,
}

// Numbers that pass the refusals up to 4.
#[derive(Clone, Copy)]
pub struct Lawful {
    pub numbers: Numbers,
    pub ghost lawful: { LawfulNumbers numbers },
}

// 2^i: as many entries are named by i selectors, and by as many places does selector i rotate. A shift, whose
// bound is stated once.
pub fn power(i: u64) -> u64
    requires { i ≤ deepest }
    ensures { result ≡ 2 ^ i }
{
    1u64 << i as u32
}

impl Lawful {
    // The number of selectors that rotate: with N = 2^v, the first v in the vertical packing, or all where there are fewer.
    pub fn rotations(self) -> u64
        ensures { result ≡ rotations self.numbers }
    {
        match self.numbers.packing {
            Packing::Horizontal => 0,
            Packing::Vertical => {
                let most = ring::exponent(self.numbers.scheme.N as usize) as u64;
                most.min(self.numbers.d)
            }
        }
    }

    // The classes in a sample of the table: those of 2^r entries.
    fn sample_classes(self) -> u64
        ensures { (result ≡ sample_classes self.numbers) × (result ≤ self.numbers.scheme.N) }
    {
        self.numbers.s * power(self.rotations())
    }

    // The samples of a table, among which the tree picks.
    fn table_samples(self) -> u64
        ensures { (result ≡ table_samples self.numbers) × (result ≤ 65536) }
    {
        power(self.numbers.d - self.rotations())
    }

    // The CMuxes of a lookup: those of the tree, and one for each step of the rotation.
    pub fn gate_count(self) -> u64
        ensures { result ≡ gate_count self.numbers }
    {
        self.table_samples() - 1 + self.rotations()
    }

    // The parameter set, which is within the code's limits.
    pub fn bounded(self) -> Bounded
        ensures { result.set ≡ parameters self.numbers.scheme }
    {
        Bounded {
            set: self.numbers.scheme.parameter_set(),
        }
    }

    // The words of a sample.
    pub fn sample_size(self) -> u64
        ensures { (result ≡ sample_size (parameters self.numbers.scheme)) × (result ≤ 5120) }
    {
        self.bounded().sample_size() as u64
    }

    // The words of a block.
    pub fn block_size(self) -> u64
        ensures { (result ≡ block_size (parameters self.numbers.scheme)) × (result ≤ 819200) }
    {
        self.bounded().block_size() as u64
    }

    // The classes of a table.
    pub fn table_size(self) -> u64
        ensures { (result ≡ table_size self.numbers) × (result ≤ 1048576) }
    {
        self.numbers.s * power(self.numbers.d)
    }

    // The words of a lent table: its classes, or its samples.
    pub fn table_words(self) -> u64
        ensures { result ≡ table_words self.numbers.visibility self.numbers }
    {
        match self.numbers.visibility {
            Visibility::Public => self.table_size(),
            Visibility::Hidden => self.table_samples() * self.sample_size(),
        }
    }

    // The amplitudes that are declared of its samples: one each where they are hidden.
    pub fn declared_words(self) -> u64
        ensures { result ≡ declared_words self.numbers.visibility self.numbers }
    {
        match self.numbers.visibility {
            Visibility::Public => 0,
            Visibility::Hidden => self.table_samples(),
        }
    }
}
