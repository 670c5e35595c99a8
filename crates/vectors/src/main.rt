// Runs the digits and the products that standard input holds, and prints their words. tests/foundation_vectors.py makes the
// input and, by an implementation of its own, the output.
#![tactic(auto)]

ghost use Rattle.std.specs.Prelude.{◌≡◌, ◌-◌, ◌^◌, ◌≤◌, length};
ghost use Rattle.std.specs.Iterator.{IsFinite, UpTo};

use gadget::Gadget;

// Word i of the input, or 0 past its end.
fn input_word(input: &[u8], i: usize) -> u32 {
    if i < input.len() / 4 {
        torus::word_at(input, i)
    } else {
        0
    }
}

// The N words of the input from word `at` on.
fn input_words<const N: usize>(input: &[u8], at: usize) -> [u32; N]
    requires { at ≤ 2 ^ 62 }
{
    std::array::from_fn(|i| input_word(input, at + i))
}

// The word, with a blank before it where it is not the first of its line.
fn print_word(place: usize, w: u32) {
    if 0 < place {
        io::write_all(1, b" ");
    }
    io::print_decimal(1, u64::from(w));
}

// A line of words.
fn print_line<Words: Iterator<Item = u32>>(words: Words)
    requires can_next { Words.Iterator.can_next words × IsFinite (Words.Iterator.remaining words) }
    requires up_to { UpTo (Words.Iterator.remaining words) (2 ^ 64 - 1) }
{
    for (place, w) in words.enumerate() {
        print_word(place, w);
    }
    io::write_all(1, b"\n");
}

// The digits of the record at word `at`: g, L and a word.
fn run_digits(input: &[u8], at: usize)
    requires { at ≤ 2 ^ 62 }
{
    let [g, l, w] = input_words::<3>(input, at);
    if gadget::lawful(u64::from(g), u64::from(l)) {
        let digits = Gadget { g, l }.decompose(w);
        print_line(digits[..l as usize].iter().copied());
    }
}

// All records of digits, after their count. Answers the word after them.
fn run_all_digits(input: &[u8]) -> usize
    ensures { result ≤ 2 ^ 40 }
{
    let count = input_word(input, 0) as usize;
    for r in 0..count {
        run_digits(input, 1 + 3 * r);
    }
    1 + 3 * count
}

// out becomes start plus digit polynomial j of x times row, and is printed. The numbers are N, g, L and j; all slices are polynomials
// of degree N.
fn run_product(
    digits: &mut [u8],
    out: &mut [u8],
    x: &[u8],
    row: &[u8],
    start: &[u8],
    numbers: [u32; 4],
)
    requires { length start.now ≡ length out.old }
{
    out.copy_from_slice(start);
    let [n, g, l, j] = numbers.map(u64::from);
    if digit_row::add_digit_row(n, g, l, j, x, row, digits, out) == 0 {
        print_line((0..out.len() / 4).map(|i| torus::word_at(out, i)));
    }
}

// The product of the record at word `at`: N, g, L, j, and the N words of each of x, row and out. Answers the word after it, or
// the end of the input where the record does not lie inside. N alone is read before that is known: a count may be far beyond the input, and
// each record that it counts there is asked for.
fn run_record(input: &[u8], at: usize) -> usize
    requires { at ≤ 2 ^ 62 }
    ensures { result ≤ 2 ^ 62 }
{
    let end = input.len() / 4;
    let n = input_word(input, at) as usize;
    if 1024 < n {
        return end;
    }
    let size = 4 * n;
    let next = at + 4 + 3 * n;
    if end < next {
        return end;
    }
    let x = 4 * at + 16;
    let row = x + size;
    let start = row + size;
    let stop = start + size;
    let mut digits = [0u8; 4096];
    let mut out = [0u8; 4096];
    run_product(
        &mut digits[0..size],
        &mut out[0..size],
        &input[x..row],
        &input[row..start],
        &input[start..stop],
        input_words(input, at),
    );
    next
}

// All records of products, after their count at word `at`.
fn run_all_products(input: &[u8], at: usize)
    requires { at ≤ 2 ^ 40 }
{
    let count = input_word(input, at);
    let mut from = at + 1;
    for _ in 0..count {
        from = run_record(input, from);
    }
}

fn main() {
    let mut input = [0u8; 65536];
    let n = io::read_full(0, &mut input);
    let after = run_all_digits(&input[..n]);
    run_all_products(&input[..n], after);
}
