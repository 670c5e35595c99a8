// The calls on scalar (LWE) samples.
ghost use Rattle.std.specs.Prelude.{◌≡◌};
ghost use Rattle.answers.specs.Answers.{number, bound, gates};
ghost use Rattle.lwe.specs.Calls as Scalars;

#[unsafe(no_mangle)]
pub extern "C" fn cikenuma_decrypt_scalar(
    n: u64,
    m: u64,
    key: &[u8],
    scalar: &[u8],
    class: &mut [u8],
) -> u32
    ensures { (result ≡ number (Scalars.decrypt_scalar n m
        key.now scalar.now class.old))
        × (class.new ≡ Scalars.decrypt_scalar_class n m
        key.now scalar.now class.old) }
{
    answers::number(lwe::decrypt_scalar(n, m, key, scalar, class))
}

#[unsafe(no_mangle)]
pub extern "C" fn cikenuma_decrypt_scalar_bound(
    n: u64,
    m: u64,
    key: &[u8],
    scalar: &[u8],
    class: &[u8],
) -> u64
    ensures { result ≡ bound (Scalars.decrypt_scalar n m
        key.now scalar.now class.now) }
{
    answers::bound(lwe::decrypt_scalar_answer(n, m, key, scalar, class))
}

#[unsafe(no_mangle)]
pub extern "C" fn cikenuma_decrypt_scalar_gates(
    n: u64,
    m: u64,
    key: &[u8],
    scalar: &[u8],
    class: &[u8],
) -> u64
    ensures { result ≡ gates (Scalars.decrypt_scalar n m
        key.now scalar.now class.now) }
{
    answers::gates(lwe::decrypt_scalar_answer(n, m, key, scalar, class))
}

#[unsafe(no_mangle)]
pub extern "C" fn cikenuma_extract(n: u64, p: u64, sample: &[u8], scalar: &mut [u8]) -> u32
    ensures { (result ≡ number (Scalars.extract n p
        sample.now scalar.old))
        × (scalar.new ≡ Scalars.extract_scalar n p
        sample.now scalar.old) }
{
    answers::number(lwe::extract(n, p, sample, scalar))
}

#[unsafe(no_mangle)]
pub extern "C" fn cikenuma_extract_bound(n: u64, p: u64, sample: &[u8], scalar: &[u8]) -> u64
    ensures { result ≡ bound (Scalars.extract n p
        sample.now scalar.now) }
{
    answers::bound(lwe::extract_answer(n, p, sample, scalar))
}

#[unsafe(no_mangle)]
pub extern "C" fn cikenuma_extract_gates(n: u64, p: u64, sample: &[u8], scalar: &[u8]) -> u64
    ensures { result ≡ gates (Scalars.extract n p
        sample.now scalar.now) }
{
    answers::gates(lwe::extract_answer(n, p, sample, scalar))
}
