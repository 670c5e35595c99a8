// Products of polynomials modulo X^N + 1 and 2^32, exactly, in a residue number system of two primes.
#![tactic(auto)]

ghost use Rattle.std.specs.Prelude.{◌≡◌, ◌*◌, length};
ghost use Rattle.torus.specs.Bytes.{words};
ghost use Rattle.ring.specs.Polynomial.{Degree, Factors, add_product};
ghost use Rattle.butterflies.specs.Butterflies.{Below};
ghost use Rattle.twiddles.specs.Primes.{modulus};
ghost use Rattle.held_sums.specs.Sums.{Places, Zeros};
ghost use Rattle.rns.specs.Exact.{Product};

use ring::Pair;
use twiddles::Prime;

// The residues of the product of small and row modulo one prime. sums is room, all 0. small, row and n are no Pair here and below: that
// the words of a slice are below 2^32 is known of a parameter, and not of a slice in a struct.
fn read_product_in(
    a: &mut [u32],
    sums: &mut [u64],
    small: &[u8],
    row: &[u8],
    n: usize,
    prime: Prime,
)
    requires { Places n 0 sums.old × Zeros sums.old × (length a.old ≡ n) × (length small.now ≡ 4 * n) × (length row.now ≡ 4 * n) }
    ensures { Product prime n (words small.now) (words row.now) a.new × Below (modulus prime) a.new }
{
    held_sums::add_row(sums, small, row, 0, n, prime);
    sums_back::read_sums(a, sums, 0, n, prime);
}

// The same, with room.
fn read_product(a: &mut [u32], small: &[u8], row: &[u8], n: usize, prime: Prime)
    requires { Degree n × (length a.old ≡ n) × (length small.now ≡ 4 * n) × (length row.now ≡ 4 * n) }
    ensures { Product prime n (words small.now) (words row.now) a.new × Below (modulus prime) a.new }
{
    let mut sums = [0u64; 1024];
    read_product_in(a, &mut sums[0..n], small, row, n, prime);
}

// To out, the product of small and row, by way of both primes. first and second are room for n numbers.
fn add_product_in(
    out: &mut [u8],
    first: &mut [u32],
    second: &mut [u32],
    small: &[u8],
    row: &[u8],
    n: usize,
)
    requires { Factors n out.old small.now row.now × (length first.old ≡ n) × (length second.old ≡ n) }
    ensures { words out.new
        ≡ add_product n (words out.old) (words small.now) (words row.now) }
{
    read_product(first, small, row, n, Prime::First);
    read_product(second, small, row, n, Prime::Second);
    residues::add_words(out, first, second);
}

// The product kernel for a factor that is a key, with the contract of schoolbook::add_product. The degree alone chooses the way:
// schoolbook is faster below 256.
pub fn add_product(out: &mut [u8], small: &[u8], row: &[u8], n: usize)
    requires { Factors n out.old small.now row.now }
    ensures { words out.new
        ≡ add_product n (words out.old) (words small.now) (words row.now) }
{
    if n < 256 {
        schoolbook::add_product(out, Pair { small, row, n });
        return;
    }
    let mut first = [0u32; 1024];
    let mut second = [0u32; 1024];
    add_product_in(out, &mut first[0..n], &mut second[0..n], small, row, n);
}
