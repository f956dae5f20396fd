// The number of an EXPOSURE line: a decimal, rounded once to an f32, above zero and finite.
// The bounds of n and of the digits behind the point stand in three contracts: a struct of both would stand for these inner functions alone.
// That a factor is usable is said of an f32 where it is made; a type of its own would be taken apart at each product.
ghost use Rattle.std.specs.Prelude.{◌≡◌, ◌&&◌, ◌++◌, ◌+◌, ◌*◌, ◌^◌, ◌≤◌, ◌<◌, Some, leb, length, drop};
ghost use Rattle.stated.specs.Exposure.{ahead, power_by, power_of, scaled_units, digit_units, point_units, exposure_of};
ghost use Rattle.stated.specs.Inner.{usable_factor, factor_of, few_number, UsableFactor};
ghost use Rattle.stated.specs.Rounded.{nearest_units};
ghost use Rattle.stated.specs.declared.number.Power.TheVariants.{Raised, Lowered};

use crate::rounded;
use words::sizes;

// The power of ten that a line names.
#[derive(Clone, Copy, Debug, PartialEq, Eq)]
pub enum Power {
    Raised(usize),
    Lowered(usize),
}

// How many bytes stand ahead of the first that is x or y.
fn ahead(part: &[u8], x: u8, y: u8) -> usize
    ensures value { result ≡ ahead x y part.now }
    ensures upper_bound { result ≤ length part.now }
{
    part.iter()
        .position(|b| *b == x || *b == y)
        .unwrap_or(part.len())
}

// What stands behind a place.
fn behind(part: &[u8], at: usize) -> &[u8]
    requires { at ≤ length part.now }
    ensures { result.now ≡ drop (at + 1) part.now }
{
    match &part[at..] {
        [_, rest @ ..] => rest,
        none => none,
    }
}

// Ten to the power k.
#[tactic(auto, using(crate::proofs::Laws::Exposure::ten_fits))]
fn ten_to(k: usize) -> usize
    requires { k ≤ 10 }
    ensures { result ≡ 10 ^ k }
{
    10usize.pow(k as u32)
}

// n / d times 2^k as an exposure.
#[tactic(auto, using(crate::proofs::Laws::Exposure::scaled_zero, crate::proofs::Laws::Exposure::scaled_some))]
fn scaled(n: usize, d: usize, k: u32) -> Option<f32>
    requires { (n < d * 2 ^ 24) × (d ≤ 2 ^ 34) × (k ≤ 34) }
    ensures { result ≡ usable_factor (nearest_units (n * 2 ^ (k + 149)) d) }
{
    if n == 0 {
        None
    } else {
        Some(rounded::nearest(n, d, k))
    }
}

// n times ten to the power p less the digits after the point; 2^34 keeps the quotient short, and is multiplied back.
#[tactic(auto, using(crate::proofs::Laws::Exposure::over_ten, crate::proofs::Laws::Exposure::raised_under, crate::proofs::Laws::Exposure::times_under, crate::proofs::Laws::Exposure::times_fits, crate::proofs::Laws::Exposure::raised_over, crate::proofs::Laws::Exposure::raised_down, crate::proofs::Laws::Exposure::raised_up))]
fn raised(n: usize, p: usize, after: usize) -> Option<f32>
    requires { (n < 2 ^ 24) × (after ≤ 7) }
    ensures { result ≡ factor_of (scaled_units n (Some (Raised p)) after) }
{
    if p < after {
        return scaled(n, ten_to(after - p), 0);
    }
    if 10 < p - after {
        return None;
    }
    scaled(n * ten_to(p - after), 17179869184, 34)
}

// n over ten to the power p and the digits after the point.
#[tactic(auto, using(crate::proofs::Laws::Exposure::over_ten, crate::proofs::Laws::Exposure::lowered_under, crate::proofs::Laws::Exposure::lowered_over, crate::proofs::Laws::Exposure::lowered_down))]
fn lowered(n: usize, p: usize, after: usize) -> Option<f32>
    requires { (n < 2 ^ 24) × (after ≤ 7) }
    ensures { result ≡ factor_of (scaled_units n (Some (Lowered p)) after) }
{
    if 10 - after < p {
        return None;
    }
    scaled(n, ten_to(p + after), 0)
}

// n times a power of ten, with so many digits after the point.
fn powered(n: usize, power: Power, after: usize) -> Option<f32>
    requires { (n < 2 ^ 24) × (after ≤ 7) }
    ensures { result ≡ factor_of (scaled_units n (Some power) after) }
{
    match power {
        Power::Raised(p) => raised(n, p, after),
        Power::Lowered(p) => lowered(n, p, after),
    }
}

// Whether two counts together are from 1 to `most`.
fn is_few(a: usize, b: usize, most: usize) -> bool
    ensures { result ≡ (leb 1 (a + b) && leb (a + b) most) }
{
    (0 < a || 0 < b) && a <= most && b <= most - a
}

// The number that at most so many digits stand for, those of two parts one after another.
#[tactic(auto, using(crate::proofs::Laws::Exposure::number_many, crate::proofs::Laws::Exposure::number_none, crate::proofs::Laws::Exposure::number_some))]
fn number_in(whole: &[u8], after: &[u8], most: usize) -> Option<usize>
    requires { most ≤ 7 }
    ensures { result ≡ few_number most (whole.now ++ after.now) }
{
    if !is_few(whole.len(), after.len(), most) {
        return None;
    }
    sizes::number_from(sizes::number_of(whole)?, after)
}

// The power that one or two digits stand for.
#[tactic(auto, using(crate::proofs::Laws::Exposure::power_none, crate::proofs::Laws::Exposure::power_lowered, crate::proofs::Laws::Exposure::power_raised))]
fn signed_power(minus: bool, digits: &[u8]) -> Option<Power>
    ensures { result ≡ power_by minus digits.now }
{
    let p = number_in(&[], digits, 2)?;
    Some(if minus {
        Power::Lowered(p)
    } else {
        Power::Raised(p)
    })
}

// The power of ten from its e on; 0 where there is none.
#[tactic(auto, using(crate::proofs::Laws::Exposure::power_zero, crate::proofs::Laws::Exposure::power_bare, crate::proofs::Laws::Exposure::power_minus, crate::proofs::Laws::Exposure::power_plus, crate::proofs::Laws::Exposure::power_plain))]
fn power_of(part: &[u8]) -> Option<Power>
    ensures { result ≡ power_of part.now }
{
    match part {
        [] => Some(Power::Raised(0)),
        [_] => None,
        [_, b'-', digits @ ..] => signed_power(true, digits),
        [_, b'+', digits @ ..] => signed_power(false, digits),
        [_, digits @ ..] => signed_power(false, digits),
    }
}

// The exposure of the digits before and after the point.
#[tactic(auto, using(crate::proofs::Laws::Exposure::digits_unread, crate::proofs::Laws::Exposure::digits_few, crate::proofs::Laws::Exposure::after_few, crate::proofs::Laws::Exposure::digits_read))]
fn with_digits(whole: &[u8], after: &[u8], power: Power) -> Option<f32>
    ensures { result ≡ factor_of (digit_units whole.now after.now (Some power)) }
{
    powered(number_in(whole, after, 7)?, power, after.len())
}

// The exposure of digits with an optional point.
fn pointed(digits: &[u8], power: Power) -> Option<f32>
    ensures { result ≡ factor_of (point_units digits.now (Some power)) }
{
    let point = ahead(digits, b'.', b'.');
    with_digits(&digits[..point], behind(digits, point), power)
}

// What stands behind EXPOSURE= as a number.
pub fn factor_in(rest: &[u8]) -> Option<f32>
    ensures value { result ≡ factor_of (exposure_of rest.now) }
    ensures usable_factor { UsableFactor result }
{
    let e = ahead(rest, b'e', b'E');
    pointed(&rest[..e], power_of(&rest[e..])?)
}
