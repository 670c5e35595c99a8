// The calls on selector blocks (TRGSW).
ghost use Rattle.std.specs.Prelude.{◌≡◌};
ghost use Rattle.answers.specs.Answers.{number, bound, gates};
ghost use Rattle.selectors.specs.Calls as Selectors;
ghost use Rattle.gates.specs.Calls as Gates;

use gates::{cmux, external};
use trgsw::Scheme;

#[unsafe(no_mangle)]
pub extern "C" fn cikenuma_encrypt_selector(
    n: u64,
    g: u64,
    l: u64,
    bit: u64,
    key: &[u8],
    masks: &[u8],
    errors: &[u8],
    block: &mut [u8],
) -> u32
    ensures { (let c : Selectors.SelectorInput = record {
      N = n;
      g = g;
      L = l;
      bit = bit;
      key = key.now;
      masks = masks.now;
      errors = errors.now;
      block = block.old;
    } in
        (result ≡ number (Selectors.encrypt_selector c)) × (block.new ≡ Selectors.encrypt_selector_block c)) }
{
    let lent = selectors::Lent {
        N: n,
        g,
        L: l,
        bit,
        key,
        masks,
        errors,
    };
    answers::number(selectors::encrypt_selector(&lent, block))
}

#[unsafe(no_mangle)]
pub extern "C" fn cikenuma_encrypt_selector_bound(
    n: u64,
    g: u64,
    l: u64,
    bit: u64,
    key: &[u8],
    masks: &[u8],
    errors: &[u8],
    block: &[u8],
) -> u64
    ensures { result ≡ bound (Selectors.encrypt_selector (record {
      N = n;
      g = g;
      L = l;
      bit = bit;
      key = key.now;
      masks = masks.now;
      errors = errors.now;
      block = block.now;
    })) }
{
    let lent = selectors::Lent {
        N: n,
        g,
        L: l,
        bit,
        key,
        masks,
        errors,
    };
    answers::bound(selectors::encrypt_selector_answer(&lent, block))
}

#[unsafe(no_mangle)]
pub extern "C" fn cikenuma_encrypt_selector_gates(
    n: u64,
    g: u64,
    l: u64,
    bit: u64,
    key: &[u8],
    masks: &[u8],
    errors: &[u8],
    block: &[u8],
) -> u64
    ensures { result ≡ gates (Selectors.encrypt_selector (record {
      N = n;
      g = g;
      L = l;
      bit = bit;
      key = key.now;
      masks = masks.now;
      errors = errors.now;
      block = block.now;
    })) }
{
    let lent = selectors::Lent {
        N: n,
        g,
        L: l,
        bit,
        key,
        masks,
        errors,
    };
    answers::gates(selectors::encrypt_selector_answer(&lent, block))
}

#[unsafe(no_mangle)]
pub extern "C" fn cikenuma_external_product(
    n: u64,
    g: u64,
    l: u64,
    w: u64,
    amplitude: u64,
    sample_amplitude: u64,
    block: &[u8],
    sample: &[u8],
    out: &mut [u8],
) -> u32
    ensures { (let c : Gates.ProductInput = record {
      scheme = record { N = n; g = g; L = l; W = w };
      amplitude = amplitude;
      sample_amplitude = «sample_amplitude»;
      block = block.now;
      sample = sample.now;
      out = out.old;
    } in
        (result ≡ number (Gates.external_product c)) × (out.new ≡ Gates.external_product_out c)) }
{
    let lent = external::Lent {
        scheme: Scheme {
            N: n,
            g,
            L: l,
            W: w,
        },
        amplitude,
        sample_amplitude,
        block,
        sample,
    };
    answers::number(external::external_product(&lent, out))
}

#[unsafe(no_mangle)]
pub extern "C" fn cikenuma_external_product_bound(
    n: u64,
    g: u64,
    l: u64,
    w: u64,
    amplitude: u64,
    sample_amplitude: u64,
    block: &[u8],
    sample: &[u8],
    out: &[u8],
) -> u64
    ensures { result ≡ bound (Gates.external_product (record {
      scheme = record { N = n; g = g; L = l; W = w };
      amplitude = amplitude;
      sample_amplitude = «sample_amplitude»;
      block = block.now;
      sample = sample.now;
      out = out.now;
    })) }
{
    let lent = external::Lent {
        scheme: Scheme {
            N: n,
            g,
            L: l,
            W: w,
        },
        amplitude,
        sample_amplitude,
        block,
        sample,
    };
    answers::bound(external::external_product_answer(&lent, out))
}

#[unsafe(no_mangle)]
pub extern "C" fn cikenuma_external_product_gates(
    n: u64,
    g: u64,
    l: u64,
    w: u64,
    amplitude: u64,
    sample_amplitude: u64,
    block: &[u8],
    sample: &[u8],
    out: &[u8],
) -> u64
    ensures { result ≡ gates (Gates.external_product (record {
      scheme = record { N = n; g = g; L = l; W = w };
      amplitude = amplitude;
      sample_amplitude = «sample_amplitude»;
      block = block.now;
      sample = sample.now;
      out = out.now;
    })) }
{
    let lent = external::Lent {
        scheme: Scheme {
            N: n,
            g,
            L: l,
            W: w,
        },
        amplitude,
        sample_amplitude,
        block,
        sample,
    };
    answers::gates(external::external_product_answer(&lent, out))
}

#[unsafe(no_mangle)]
pub extern "C" fn cikenuma_cmux(
    n: u64,
    g: u64,
    l: u64,
    w: u64,
    amplitude: u64,
    amplitude0: u64,
    amplitude1: u64,
    block: &[u8],
    sample0: &[u8],
    sample1: &[u8],
    out: &mut [u8],
) -> u32
    ensures { (let c : Gates.CMuxInput = record {
      scheme = record { N = n; g = g; L = l; W = w };
      amplitude = amplitude;
      amplitude₀ = amplitude0;
      amplitude₁ = amplitude1;
      block = block.now;
      sample₀ = sample0.now;
      sample₁ = sample1.now;
      out = out.old;
    } in
        (result ≡ number (Gates.cmux c)) × (out.new ≡ Gates.cmux_out c)) }
{
    let lent = cmux::Lent {
        scheme: Scheme {
            N: n,
            g,
            L: l,
            W: w,
        },
        amplitude,
        amplitude0,
        amplitude1,
        block,
        sample0,
        sample1,
    };
    answers::number(cmux::cmux(&lent, out))
}

#[unsafe(no_mangle)]
pub extern "C" fn cikenuma_cmux_bound(
    n: u64,
    g: u64,
    l: u64,
    w: u64,
    amplitude: u64,
    amplitude0: u64,
    amplitude1: u64,
    block: &[u8],
    sample0: &[u8],
    sample1: &[u8],
    out: &[u8],
) -> u64
    ensures { result ≡ bound (Gates.cmux (record {
      scheme = record { N = n; g = g; L = l; W = w };
      amplitude = amplitude;
      amplitude₀ = amplitude0;
      amplitude₁ = amplitude1;
      block = block.now;
      sample₀ = sample0.now;
      sample₁ = sample1.now;
      out = out.now;
    })) }
{
    let lent = cmux::Lent {
        scheme: Scheme {
            N: n,
            g,
            L: l,
            W: w,
        },
        amplitude,
        amplitude0,
        amplitude1,
        block,
        sample0,
        sample1,
    };
    answers::bound(cmux::cmux_answer(&lent, out))
}

#[unsafe(no_mangle)]
pub extern "C" fn cikenuma_cmux_gates(
    n: u64,
    g: u64,
    l: u64,
    w: u64,
    amplitude: u64,
    amplitude0: u64,
    amplitude1: u64,
    block: &[u8],
    sample0: &[u8],
    sample1: &[u8],
    out: &[u8],
) -> u64
    ensures { result ≡ gates (Gates.cmux (record {
      scheme = record { N = n; g = g; L = l; W = w };
      amplitude = amplitude;
      amplitude₀ = amplitude0;
      amplitude₁ = amplitude1;
      block = block.now;
      sample₀ = sample0.now;
      sample₁ = sample1.now;
      out = out.now;
    })) }
{
    let lent = cmux::Lent {
        scheme: Scheme {
            N: n,
            g,
            L: l,
            W: w,
        },
        amplitude,
        amplitude0,
        amplitude1,
        block,
        sample0,
        sample1,
    };
    answers::gates(cmux::cmux_answer(&lent, out))
}
