// The calls on packed (TRLWE) samples.
ghost use Rattle.std.specs.Prelude.{◌≡◌};
ghost use Rattle.answers.specs.Answers.{number, bound, gates};
ghost use Rattle.trlwe.specs.Calls as Packed;

#[unsafe(no_mangle)]
pub extern "C" fn cikenuma_encrypt_classes(
    n: u64,
    m: u64,
    s: u64,
    key: &[u8],
    mask: &[u8],
    errors: &[u8],
    classes: &[u8],
    sample: &mut [u8],
) -> u32
    ensures { (result ≡ number (Packed.encrypt_classes n m s
        key.now mask.now errors.now classes.now sample.old))
        × (sample.new ≡ Packed.encrypt_classes_sample n m s
        key.now mask.now errors.now classes.now sample.old) }
{
    answers::number(trlwe::encrypt_classes(n, m, s, key, mask, errors, classes, sample))
}

#[unsafe(no_mangle)]
pub extern "C" fn cikenuma_encrypt_classes_bound(
    n: u64,
    m: u64,
    s: u64,
    key: &[u8],
    mask: &[u8],
    errors: &[u8],
    classes: &[u8],
    sample: &[u8],
) -> u64
    ensures { result ≡ bound (Packed.encrypt_classes n m s
        key.now mask.now errors.now classes.now sample.now) }
{
    answers::bound(trlwe::encrypt_classes_answer(n, m, s, key, mask, errors, classes, sample))
}

#[unsafe(no_mangle)]
pub extern "C" fn cikenuma_encrypt_classes_gates(
    n: u64,
    m: u64,
    s: u64,
    key: &[u8],
    mask: &[u8],
    errors: &[u8],
    classes: &[u8],
    sample: &[u8],
) -> u64
    ensures { result ≡ gates (Packed.encrypt_classes n m s
        key.now mask.now errors.now classes.now sample.now) }
{
    answers::gates(trlwe::encrypt_classes_answer(n, m, s, key, mask, errors, classes, sample))
}

#[unsafe(no_mangle)]
pub extern "C" fn cikenuma_decrypt_classes(
    n: u64,
    m: u64,
    s: u64,
    key: &[u8],
    sample: &[u8],
    classes: &mut [u8],
) -> u32
    ensures { (result ≡ number (Packed.decrypt_classes n m s
        key.now sample.now classes.old))
        × (classes.new ≡ Packed.decrypt_classes_classes n m s
        key.now sample.now classes.old) }
{
    answers::number(trlwe::decrypt_classes(n, m, s, key, sample, classes))
}

#[unsafe(no_mangle)]
pub extern "C" fn cikenuma_decrypt_classes_bound(
    n: u64,
    m: u64,
    s: u64,
    key: &[u8],
    sample: &[u8],
    classes: &[u8],
) -> u64
    ensures { result ≡ bound (Packed.decrypt_classes n m s
        key.now sample.now classes.now) }
{
    answers::bound(trlwe::decrypt_classes_answer(n, m, s, key, sample, classes))
}

#[unsafe(no_mangle)]
pub extern "C" fn cikenuma_decrypt_classes_gates(
    n: u64,
    m: u64,
    s: u64,
    key: &[u8],
    sample: &[u8],
    classes: &[u8],
) -> u64
    ensures { result ≡ gates (Packed.decrypt_classes n m s
        key.now sample.now classes.now) }
{
    answers::gates(trlwe::decrypt_classes_answer(n, m, s, key, sample, classes))
}
