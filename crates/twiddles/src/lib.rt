// The twiddle factors of transforms modulo two primes. Their lists have names: who calls these functions proves with the names and never
// computes with the numbers.
#![tactic(auto)]

mod tables;

ghost use Rattle.std.specs.Prelude.{◌≡◌, ◌*◌, ◌^◌, ◌≤◌, get_or};
ghost use Rattle.butterflies.specs.Same.{Same};
ghost use Rattle.twiddles.specs.Primes as Primes;
ghost use Rattle.twiddles.specs.Tables as Tables;

use butterflies::Factor;
use ntt::Plan;
pub use tables::Lists;

// The two primes, as in specs/Primes.antt.
pub const P1: u32 = 1073707009;

pub const P2: u32 = 1073698817;

// Which of the two.
#[derive(Clone, Copy)]
pub enum Prime {
    First,
    Second,
}

// The prime itself.
pub fn modulus(prime: Prime) -> u32
    ensures { result ≡ Primes.modulus prime }
{
    match prime {
        Prime::First => P1,
        Prime::Second => P2,
    }
}

// Its tables.
pub fn lists(prime: Prime) -> &'static Lists
    ensures { (result.now.roots ≡ Tables.roots_of prime) × (result.now.quotients ≡ Tables.quotients_of prime)
        × (result.now.scales ≡ Tables.scales_of prime) × (result.now.scale_quotients ≡ Tables.scale_quotients_of prime) }
{
    match prime {
        Prime::First => &tables::FIRST,
        Prime::Second => &tables::SECOND,
    }
}

// The roots of transforms of 2^n coefficients, and their quotients.
pub fn plan(prime: Prime, n: usize) -> Plan<'static>
    requires { n ≤ 10 }
    ensures { (result.tables.p ≡ Primes.modulus prime) × (result.tables.n ≡ n) × (result.tables.roots.now ≡ Tables.roots_of prime)
        × (result.tables.quotients.now ≡ Tables.quotients_of prime) × (4294967296 ≤ 6 * result.tables.p) }
{
    let lists = lists(prime);
    Plan {
        tables: ntt::Tables {
            p: modulus(prime),
            n,
            roots: &lists.roots,
            quotients: &lists.quotients,
        },
    }
}

// The inverse of 2^n.
pub fn scale(prime: Prime, n: usize) -> Factor
    requires { n ≤ 10 }
    ensures { (result.p ≡ Primes.modulus prime) × (result.w ≡ get_or (Tables.scales_of prime) n 0)
        × (result.v ≡ get_or (Tables.scale_quotients_of prime) n 0) × Same result.p (2 ^ n * result.w) 1 }
{
    let lists = lists(prime);
    Factor {
        w: lists.scales[n],
        v: lists.scale_quotients[n],
        p: modulus(prime),
    }
}
