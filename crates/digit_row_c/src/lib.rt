// What C takes of `digit_row`, for the benchmark. Its numbers are not those of the portal's table.
#![tactic(auto)]

ghost use Rattle.digit_row.specs.Call as C;

// To out, digit polynomial j of x times row, modulo X^n + 1. The digit polynomial is left in digits.
#[unsafe(no_mangle)]
pub extern "C" fn add_digit_row(
    n: u64,
    g: u64,
    l: u64,
    j: u64,
    x: &[u8],
    row: &[u8],
    digits: &mut [u8],
    out: &mut [u8],
) -> u32
    ensures { C.Answered n g l j
        x.now row.now digits.old out.old
        result digits.new out.new }
{
    digit_row::add_digit_row(n, g, l, j, x, row, digits, out)
}
