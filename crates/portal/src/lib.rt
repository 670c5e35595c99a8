// The calls that C programs make. Each returns its number; its two sisters take the same arguments, write nothing, and return the
// bound and the gates. include/cikenuma.h documents them. The C interface is why there are three functions for one answer, why their
// arguments stand one by one, and why each packing and each kind of table has functions of its own.
#![tactic(auto)]

pub mod blocks;
pub mod hidden;
pub mod lookups;
pub mod packed;
pub mod scalar;

ghost use Rattle.std.specs.Prelude.{◌≡◌};

use tables::{Numbers, Packing, Visibility};
use trgsw::Scheme;

// The numbers of a lookup.
fn numbers(
    packing: Packing,
    visibility: Visibility,
    n: u64,
    g: u64,
    l: u64,
    w: u64,
    m: u64,
    s: u64,
    d: u64,
) -> Numbers
    ensures { result ≡ record { packing = packing; visibility = visibility; scheme = record { N = n; g = g; L = l; W = w }; M = m; s = s; d = d } }
{
    Numbers {
        packing,
        visibility,
        scheme: Scheme {
            N: n,
            g,
            L: l,
            W: w,
        },
        M: m,
        s,
        d,
    }
}
