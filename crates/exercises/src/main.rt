// The cases of the exercise table, run: one line a case, its letter and then the numbers that the code gives.
#![tactic(auto)]

use gadget::Gadget;
use ring::Pair;
use trlwe::Encoding;

// A line begins with its letter.
fn start(letter: u8) {
    io::write_all(1, &[letter]);
}

// A blank, and a word in decimal.
fn word(w: u32) {
    io::write_all(1, b" ");
    io::print_decimal(1, u64::from(w));
}

// The words of s.
fn words(s: &[u8]) {
    for i in 0..s.len() / 4 {
        word(torus::word_at(s, i));
    }
}

// A blank, and a word's centred reading in decimal.
fn centred(w: u32) {
    if w < 2147483648 {
        word(w);
    } else {
        io::write_all(1, b" -");
        io::print_decimal(1, u64::from(torus::magnitude(w)));
    }
}

// A line ends.
fn end() {
    io::write_all(1, b"\n");
}

// Cases a to g: a line of the digits of w, with g = 8 and L = 2.
fn digits(letter: u8, w: u32) {
    let d = Gadget { g: 8, l: 2 }.decompose(w);
    start(letter);
    centred(d[0]);
    centred(d[1]);
    end();
}

// Case h: with N = 2, the words of (1 + 2X)·X. X is the small factor.
fn product() -> [u8; 8] {
    let x = [0u8, 0, 0, 0, 1, 0, 0, 0];
    let row = [1u8, 0, 0, 0, 2, 0, 0, 0];
    let pair = Pair {
        small: &x,
        row: &row,
        n: 2,
    };
    let mut out = [0u8; 8];
    schoolbook::add_product(&mut out, pair);
    out
}

// Cases i to k: the class of a phase word, with M = 16.
fn class(f: u32) -> u32 {
    Encoding { m: 16 }.decode(f)
}

// Case l: the scalar sample of coefficient p, with N = 2, mask (5, 7) and body (9, 11). The call is accepted for p = 0 and p = 1.
fn extracted(p: u64) -> [u8; 12] {
    let sample = [5u8, 0, 0, 0, 7, 0, 0, 0, 9, 0, 0, 0, 11, 0, 0, 0];
    let mut scalar = [0u8; 12];
    let _ = lwe::extract(2, p, &sample, &mut scalar);
    scalar
}

fn main() {
    digits(b'a', 0);
    digits(b'b', 32767);
    digits(b'c', 32768);
    digits(b'd', 8388608);
    digits(b'e', 2139095040);
    digits(b'f', 4294934528);
    digits(b'g', 2147483648);
    start(b'h');
    words(&product());
    end();
    start(b'i');
    word(class(134217727));
    end();
    start(b'j');
    word(class(134217728));
    end();
    start(b'k');
    word(class(4160749568));
    word(class(4160749567));
    end();
    start(b'l');
    words(&extracted(0));
    words(&extracted(1));
    end();
}
