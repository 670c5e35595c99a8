// What a public call answers, and the checks that calls share. Every check takes every number and every slice; only the last,
// `noise`, asks that the number of classes has been tested.
#![tactic(auto)]

ghost use Rattle.std.specs.Prelude.{◌≡◌, ◌+◌, ◌^◌, ◌≤◌, ◌<◌, length};
ghost use Rattle.torus.specs.Bytes.{words};
ghost use Rattle.answers.specs.Checks as Checks;
ghost use Rattle.answers.specs.Answers as Answers;

// Why a call refuses: each row of the table of returned numbers, whose numbers `number` has. One that judges several things has a case
// for each.
#[derive(Clone, Copy, Debug, PartialEq, Eq)]
pub enum Refusal {
    // 1: N is no power of two from 1 to 1,024.
    Degree,
    // 2: a word has no room for the digits.
    Gadget,
    // 12: the declared weight is above the most ones that a key can have.
    Weight,
    // 3: M is no power of two from 2 to 65,536.
    ClassNumber,
    // 4: a number that counts from 1, as of classes in an entry or of a digit, is 0 or too large.
    Count,
    // 4: there are too many selectors.
    Depth,
    // 4: a polynomial has no coefficient of that number.
    Position,
    // 5: a slice has another length than the exact one.
    Length,
    // 6: a declared amplitude is above 2^31.
    Amplitude,
    // 7: a class is not below M.
    Class,
    // 7: a selector bit is above 1.
    Bit,
    // 8: a word of a key is above 1.
    Key,
    // 9: the noise bound, which is told, is half of a class's band or more.
    Noise(u64),
}

impl Refusal {
    // The number that a refused call returns.
    pub fn number(self) -> u32
        ensures { result ≡ Answers.refusal_number self }
    {
        match self {
            Refusal::Degree => 1,
            Refusal::Gadget => 2,
            Refusal::Weight => 12,
            Refusal::ClassNumber => 3,
            Refusal::Count => 4,
            Refusal::Depth => 4,
            Refusal::Position => 4,
            Refusal::Length => 5,
            Refusal::Amplitude => 6,
            Refusal::Class => 7,
            Refusal::Bit => 7,
            Refusal::Key => 8,
            Refusal::Noise(_) => 9,
        }
    }

    // The noise bound that it reports.
    pub fn bound(self) -> u64
        ensures { result ≡ Answers.refusal_bound self }
    {
        match self {
            Refusal::Noise(bound) => bound,
            _ => 0,
        }
    }
}

// What an accepted call reports: its noise bound, and the number of its CMuxes ("gates").
#[derive(Clone, Copy, Debug, PartialEq, Eq)]
pub struct Ledger {
    pub bound: u64,
    pub gates: u64,
}

impl Ledger {
    // One CMux more: its level's charge is added to the bound.
    pub fn raise(self, charge: u64) -> Ledger
        requires { (self.bound + charge < 2 ^ 64) × (self.gates + 1 < 2 ^ 64) }
        ensures { (result.bound ≡ self.bound + charge) × (result.gates ≡ self.gates + 1) }
    {
        Ledger {
            bound: self.bound + charge,
            gates: self.gates + 1,
        }
    }

    // For a branch that begins where this one began: a path goes through one of the two, so the bound is that of the start; the
    // gates of both count.
    pub fn beside(self, start: Ledger) -> Ledger
        ensures { (result.bound ≡ start.bound) × (result.gates ≡ self.gates) }
    {
        Ledger {
            bound: start.bound,
            gates: self.gates,
        }
    }
}

// What a check gives.
pub type Checked = Result<(), Refusal>;

// What a call gives: what it reports, or why it refuses.
pub type Answer = Result<Ledger, Refusal>;

// The number that a call returns, or a check: 0 where it is accepted or passes.
pub fn number<T: Drop>(answer: Result<T, Refusal>) -> u32
    ensures { result ≡ Answers.number answer }
{
    match answer {
        Ok(_) => 0,
        Err(refusal) => refusal.number(),
    }
}

// The noise bound that it reports.
pub fn bound(answer: Answer) -> u64
    ensures { result ≡ Answers.bound answer }
{
    match answer {
        Ok(ledger) => ledger.bound,
        Err(refusal) => refusal.bound(),
    }
}

// The gates that it reports.
pub fn gates(answer: Answer) -> u64
    ensures { result ≡ Answers.gates answer }
{
    match answer {
        Ok(ledger) => ledger.gates,
        Err(_) => 0,
    }
}

// The answer where nothing is to report.
pub fn accepted() -> Answer
    ensures { result ≡ Answers.accepted }
{
    Ok(Ledger { bound: 0, gates: 0 })
}

// A check of one test.
fn unless(passed: bool, refusal: Refusal) -> Checked
    ensures { result ≡ Checks.unless passed refusal }
{
    if passed { Ok(()) } else { Err(refusal) }
}

// 1: the degree.
pub fn degree(n: u64) -> Checked
    ensures { result ≡ Checks.degree n }
{
    unless(ring::is_degree(n), Refusal::Degree)
}

// 2: the gadget.
pub fn gadget(g: u64, l: u64) -> Checked
    ensures { result ≡ Checks.gadget g l }
{
    unless(gadget::lawful(g, l), Refusal::Gadget)
}

// 12: the declared weight of a key.
pub fn weight(most: u64, w: u64) -> Checked
    ensures { result ≡ Checks.weight most w }
{
    unless(w <= most, Refusal::Weight)
}

// Whether m is a number of classes.
fn is_class_number(m: u64) -> bool
    ensures { result ≡ Checks.is_class_number m }
{
    m.count_ones() == 1 && 2 <= m && m <= 65536
}

// 3: the number of classes.
pub fn class_number(m: u64) -> Checked
    ensures { result ≡ Checks.class_number m }
{
    unless(is_class_number(m), Refusal::ClassNumber)
}

// 4: the number of classes in an entry.
pub fn count(most: u64, s: u64) -> Checked
    ensures { result ≡ Checks.count most s }
{
    unless(1 <= s && s <= most, Refusal::Count)
}

// 4: the number of selectors.
pub fn depth(most: u64, d: u64) -> Checked
    ensures { result ≡ Checks.depth most d }
{
    unless(d <= most, Refusal::Depth)
}

// 4: the position of a coefficient.
pub fn position(n: u64, p: u64) -> Checked
    ensures { result ≡ Checks.position n p }
{
    unless(p < n, Refusal::Position)
}

// 1, 3 and 4: the numbers of a sample that hides s classes.
pub fn sample_numbers(n: u64, m: u64, s: u64) -> Checked
    ensures { result ≡ Checks.sample_numbers n m s }
{
    degree(n)?;
    class_number(m)?;
    count(n, s)
}

// 5: a length in bytes, against the exact one in words. It is divided, so that no number of words wraps.
pub fn exact(length: usize, words: u64) -> Checked
    ensures { result ≡ Checks.exact length words }
{
    let bytes = length as u64;
    unless(bytes % 4 == 0 && bytes / 4 == words, Refusal::Length)
}

// 6: an amplitude that is passed by value.
pub fn amplitude(a: u64) -> Checked
    ensures { result ≡ Checks.amplitude a }
{
    unless(a <= 2147483648, Refusal::Amplitude)
}

// Whether each word of s is below the limit.
fn all_below(s: &[u8], limit: u64) -> bool
    ensures { result ≡ Checks.all_below limit (words s.now) }
{
    for i in 0..s.len() / 4 {
        if limit <= torus::word_at(s, i) as u64 {
            return false;
        }
    }
    true
}

// 6: a slice of amplitudes.
pub fn amplitudes(s: &[u8]) -> Checked
    ensures { result ≡ Checks.amplitudes (words s.now) }
{
    unless(all_below(s, 2147483649), Refusal::Amplitude)
}

// 7: a slice of classes.
pub fn classes(m: u64, s: &[u8]) -> Checked
    ensures { result ≡ Checks.classes m (words s.now) }
{
    unless(all_below(s, m), Refusal::Class)
}

// 7: a selector bit.
pub fn bit(m: u64) -> Checked
    ensures { result ≡ Checks.bit m }
{
    unless(m <= 1, Refusal::Bit)
}

// 8: the words of a key.
pub fn key(s: &[u8]) -> Checked
    ensures { result ≡ Checks.key (words s.now) }
{
    unless(all_below(s, 2), Refusal::Key)
}

// 9: the noise bound, against half of a class's band; with the gates that are reported where it is accepted.
pub fn noise(m: u64, bound: u64, gates: u64) -> Answer
    requires { 1 ≤ m }
    ensures { result ≡ Answers.noise m bound gates }
{
    if bound < 2147483648 / m {
        Ok(Ledger { bound, gates })
    } else {
        Err(Refusal::Noise(bound))
    }
}

// The greatest magnitude among the words of s.
pub fn greatest_magnitude(s: &[u8]) -> u32
    ensures { result ≡ Answers.greatest_magnitude (words s.now) }
{
    let mut most = 0;
    for i in 0..s.len() / 4 {
        most = most.max(torus::magnitude(torus::word_at(s, i)));
    }
    most
}
