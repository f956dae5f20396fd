// The last field of a line: bytes or samples in hexadecimal.
#![tactic(auto)]

ghost use Rattle.std.specs.Prelude.{◌≡◌, ℕ, ◌^◌, ◌≤◌, ◌<◌, length, drop, IfSome};
ghost use Rattle.std.specs.Float.{binary32};
ghost use Rattle.std.specs.Float.Ieee.{of_bits};
ghost use Rattle.hexadecimal.specs.Digits.{worth, numeral_from};
ghost use Rattle.hexadecimal.specs.Hex.{count_of, values_read};
ghost use Rattle.std.proofs.Common.{rules};

// A value that so many digits write, at most 8; it is that of the number that they stand for.
pub trait Written: Copy {
    ghost DIGITS: { ℕ };

    ghost value: { ℕ → Self };

    const DIGITS: usize;

    // The value of a number.
    fn of(n: usize) -> Self
        requires { n < 16 ^ DIGITS }
        ensures { result ≡ value n };

    ghost few: { (0 < DIGITS) × (DIGITS ≤ 8) };
}

impl Written for u8 {
    ghost DIGITS = { 2 };

    ghost value = { λ n. n };

    const DIGITS: usize = 2;

    fn of(n: usize) -> u8 {
        n as u8
    }

    ghost few = { Prim.search rules };
}

impl Written for f32 {
    ghost DIGITS = { 8 };

    ghost value = { of_bits binary32 };

    const DIGITS: usize = 8;

    // A pattern that is no number's stands for no number.
    fn of(n: usize) -> f32 {
        let bits = n as u32;
        if 0x7f80_0000 < bits % 0x8000_0000 {
            return 0.0 / 0.0;
        }
        f32::from_bits(bits)
    }

    ghost few = { Prim.search rules };
}

// The worth of a digit.
// No `to_digit(16)`: it takes capitals, which are none here.
#[tactic(auto, unfolding(crate::specs::Digits::worth))]
fn digit(b: u8) -> Option<usize>
    ensures { result ≡ worth b }
{
    match b {
        b'0'..=b'9' => Some(usize::from(b - b'0')),
        b'a'..=b'f' => Some(usize::from(b - b'a') + 10),
        _ => None,
    }
}

// The number that at most 8 digits stand for.
#[tactic(auto, using(crate::proofs::Laws::Digits::digit_by_digit))]
fn numeral(digits: &[u8]) -> Option<usize>
    requires { length digits.now ≤ 8 }
    ensures { result ≡ numeral_from 0 digits.now }
{
    let mut n = 0;
    for b in digits {
        n = n * 16 + digit(*b)?;
    }
    Some(n)
}

// How many values a field writes, with so many digits to a value.
#[tactic(auto, unfolding(crate::specs::Hex::count_of))]
fn count(field: &[u8], digits: usize) -> Option<usize>
    requires { 0 < digits }
    ensures { result ≡ count_of digits field.now }
{
    match field {
        b"-" => Some(0),
        [] => None,
        _ if field.len() % digits != 0 => None,
        _ => Some(field.len() / digits),
    }
}

// The values that a field writes, to the start of `values`; how many they are.
fn values_of<T: Written>(field: &[u8], values: &mut [T]) -> Option<usize>
    ensures value { (result, values.new) ≡ values_read T.value T.DIGITS field.now values.old }
    ensures fits { IfSome result (λ n. n ≤ length values.new) }
{
    let size = T::DIGITS;
    let n = count(field, size)?;
    if values.len() < n {
        return None;
    }
    for k in 0..n {
        let digits = &field[size * k..size * k + size];
        values[k] = T::of(numeral(digits)?);
    }
    Some(n)
}

// The values that the line from `at` on writes.
#[tactic(auto, unfolding(crate::specs::Hex::count_of))]
pub fn values_at<T: Written>(line: &[u8], at: usize, values: &mut [T]) -> Option<usize>
    ensures value { (result, values.new) ≡ values_read T.value T.DIGITS (drop at line.now) values.old }
    ensures fits { IfSome result (λ n. n ≤ length values.new) }
{
    values_of(line.get(at..)?, values)
}
