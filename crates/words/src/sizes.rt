// Sizes: digits with an optional plus.
ghost use Rattle.std.specs.Prelude.{◌≡◌, ◌∷◌, []};
ghost use Rattle.words.specs.Inner.{size_answer};
ghost use Rattle.words.specs.Sizes.{unsigned, number_from};

// The number n with one digit more.
// No `parse`: it reads text, and a field may be any bytes.
#[tactic(auto, using(crate::proofs::Laws::Sizes::digit_not, crate::proofs::Laws::Sizes::digit_over, crate::proofs::Laws::Sizes::digit_fits))]
fn with_digit(n: usize, x: u8) -> Option<usize>
    ensures { result ≡ number_from n (x ∷ []) }
{
    if !x.is_ascii_digit() {
        return None;
    }
    n.checked_mul(10)?.checked_add(usize::from(x - b'0'))
}

// The number below 2^64 that digits stand for, after those that stand for `before`.
#[tactic(auto, using(crate::proofs::Laws::Sizes::number_end, crate::proofs::Laws::Sizes::number_more, crate::proofs::Laws::Sizes::number_none))]
pub fn number_from(before: usize, digits: &[u8]) -> Option<usize>
    ensures { result ≡ number_from before digits.now }
{
    let mut n = before;
    for x in digits {
        n = with_digit(n, *x)?;
    }
    Some(n)
}

// The number below 2^64 that digits stand for.
pub fn number_of(digits: &[u8]) -> Option<usize>
    ensures { result ≡ number_from 0 digits.now }
{
    number_from(0, digits)
}

// The field without its leading plus.
#[tactic(auto, using(crate::proofs::Laws::Sizes::unsigned_plain, crate::proofs::Laws::Sizes::unsigned_plus))]
fn unsigned(field: &[u8]) -> &[u8]
    ensures { result.now ≡ unsigned field.now }
{
    match field {
        [b'+', rest @ ..] => rest,
        _ => field,
    }
}

// What a field says as a size.
#[tactic(auto, using(crate::proofs::Laws::Sizes::size_none, crate::proofs::Laws::Sizes::size_some))]
pub fn size_of(field: &[u8]) -> Option<usize>
    ensures { result ≡ size_answer field.now }
{
    let digits = unsigned(field);
    if digits.is_empty() {
        return None;
    }
    number_of(digits)
}
