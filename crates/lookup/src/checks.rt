// What refuses a lookup beside its numbers, before its noise is judged.
ghost use Rattle.std.specs.Prelude.{◌≡◌};
ghost use Rattle.torus.specs.Bytes.{words};
ghost use Rattle.answers.specs.Checks.{◌or_else◌};
ghost use Rattle.answers.specs.Checks as Check;
ghost use Rattle.tables.specs.Numbers.{LawfulNumbers};
ghost use Rattle.tables.specs.Table.{classes_of};
ghost use Rattle.lookup.specs.Job.{job_of};
ghost use Rattle.lookup.specs.Inner as Inner;

use crate::Lent;
use answers::Checked;
use tables::Lawful;

// 5: the lengths of the slices.
pub fn check_lengths(lent: &Lent, sample: &[u8], work: &[u8]) -> Checked
    requires { LawfulNumbers lent.now.numbers }
    ensures { result ≡ Inner.lengths (job_of lent.now sample.now work.now) }
{
    let x = Lawful {
        numbers: lent.numbers,
    };
    let d = lent.numbers.d;
    answers::exact(lent.blocks.len(), d * x.block_size())?;
    answers::exact(lent.amplitudes.len(), d)?;
    answers::exact(lent.table.len(), x.table_words())?;
    answers::exact(lent.entry_amplitudes.len(), x.declared_words())?;
    answers::exact(sample.len(), x.sample_size())?;
    answers::exact(work.len(), x.sample_size() * (d + 1))
}

// 6 and 7: the amplitudes of selectors and entries, and the classes.
pub fn check_contents(lent: &Lent) -> Checked
    ensures { result ≡ (Check.amplitudes (words lent.now.amplitudes.now)
        or_else Check.amplitudes (words lent.now.entry_amplitudes.now)
        or_else classes_of lent.now.numbers.visibility lent.now.numbers.M (words lent.now.table.now)) }
{
    answers::amplitudes(lent.amplitudes)?;
    answers::amplitudes(lent.entry_amplitudes)?;
    lent.numbers.check_classes(lent.table)
}

// All but 9.
pub fn check(lent: &Lent, sample: &[u8], work: &[u8]) -> Checked
    ensures { result ≡ Inner.checks (job_of lent.now sample.now work.now) }
{
    lent.numbers.check()?;
    check_lengths(lent, sample, work)?;
    check_contents(lent)
}
