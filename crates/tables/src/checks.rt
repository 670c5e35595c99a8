// What refuses the numbers of a lookup and the classes of its table.
ghost use Rattle.std.specs.Prelude.{◌≡◌, Err};
ghost use Rattle.std.specs.Result.{MatchResult};
ghost use Rattle.torus.specs.Bytes.{words};
ghost use Rattle.answers.specs.Checks.{passed};
ghost use Rattle.tables.specs.Numbers.{most_classes, most_selectors, numbers};
ghost use Rattle.tables.specs.Table.{classes_of};

use crate::{Lawful, Numbers, Packing, Visibility};
use answers::{Checked, Refusal};

impl Packing {
    // The most classes of an entry, with degree n.
    fn most_classes(self, n: u64) -> u64
        ensures { result ≡ most_classes self n }
    {
        match self {
            Packing::Horizontal => n,
            Packing::Vertical => 1,
        }
    }

    // The most selectors of a lookup.
    fn most_selectors(self) -> u64
        ensures { result ≡ most_selectors self }
    {
        match self {
            Packing::Horizontal => crate::HORIZONTAL_SELECTORS,
            Packing::Vertical => crate::VERTICAL_SELECTORS,
        }
    }
}

impl Numbers {
    // 1, 2, 12, 3 and 4: the numbers.
    pub fn check(self) -> Checked
        ensures { result ≡ numbers self }
    {
        self.scheme.check()?;
        answers::class_number(self.M)?;
        answers::count(self.packing.most_classes(self.scheme.N), self.s)?;
        answers::depth(self.packing.most_selectors(), self.d)
    }

    // The same numbers, if they pass.
    pub fn lawful(self) -> Result<Lawful, Refusal>
        ensures { MatchResult result (λ x. (numbers self ≡ passed) × (x.numbers ≡ self)) (λ refusal. numbers self ≡ Err refusal) }
    {
        self.check()?;
        Ok(Lawful { numbers: self })
    }

    // 7: the classes of a public table.
    pub fn check_classes(self, table: &[u8]) -> Checked
        ensures { result ≡ classes_of self.visibility self.M (words table.now) }
    {
        match self.visibility {
            Visibility::Public => answers::classes(self.M, table),
            Visibility::Hidden => Ok(()),
        }
    }
}
