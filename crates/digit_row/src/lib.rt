// One term of an external product as a total call, for the benchmark and the vectors. It is no call of the portal, and its numbers are its own:
// 1, 2 and 5 are for what they are for there, and 4 is for the number of a digit that the gadget does not have.
#![tactic(auto)]

ghost use Rattle.std.specs.Prelude.{◌≡◌};
ghost use Rattle.digit_row.specs.Call as C;

use answers::Checked;
use gadget::Gadget;
use ring::Pair;

// Passes if all fits, else says the first fault. x, row, digits and out are lengths in bytes.
#[tactic(auto, unfolding(crate::specs::Call::checks))]
fn checks(
    n: u64,
    g: u64,
    l: u64,
    j: u64,
    x: usize,
    row: usize,
    digits: usize,
    out: usize,
) -> Checked
    ensures { result ≡ C.checks n g l j x row digits out }
{
    answers::degree(n)?;
    answers::gadget(g, l)?;
    answers::count(l, j)?;
    answers::exact(x, n)?;
    answers::exact(row, n)?;
    answers::exact(digits, n)?;
    answers::exact(out, n)
}

// To out, digit polynomial j of x times row, modulo X^n + 1. The digit polynomial is left in digits. For C it takes its arguments one by
// one, and returns a number.
#[unsafe(no_mangle)]
pub extern "C" fn add_digit_row(
    n: u64,
    g: u64,
    l: u64,
    j: u64,
    x: &[u8],
    row: &[u8],
    digits: &mut [u8],
    out: &mut [u8],
) -> u32
    ensures { C.Answered n g l j
        x.now row.now digits.old out.old
        result digits.new out.new }
{
    if let Err(refusal) = checks(n, g, l, j, x.len(), row.len(), digits.len(), out.len()) {
        return refusal.number();
    }
    let gadget = Gadget {
        g: g as u32,
        l: l as u32,
    };
    gadget.write_digits(digits, x, j as u32);
    let pair = Pair {
        small: digits,
        row,
        n: n as usize,
    };
    schoolbook::add_sparse_product(out, pair);
    0
}
