// Fractions rounded once to an f32, by whole numbers alone.
ghost use Rattle.std.specs.Prelude.{◌≡◌, true, ◌+◌, ◌*◌, ◌^◌, ◌≤◌, ◌<◌};
ghost use Rattle.pixel.specs.Units.{of_units};
ghost use Rattle.stated.specs.Rounded.{nearest_whole, nearest_units, usable};
ghost use Rattle.stated.specs.Inner.{Usable};

use std::cmp::Ordering;

// 2^23: one in the exponent field of an f32's bits.
const FIELD: u32 = 8388608;

// a / b rounded to the nearest whole number, a tie to the even one.
#[tactic(auto, using(crate::proofs::Laws::Rounded::whole_down, crate::proofs::Laws::Rounded::whole_tie, crate::proofs::Laws::Rounded::whole_up))]
fn nearest_whole(a: usize, b: usize) -> usize
    requires { (0 < b) × (b ≤ 2 ^ 34) × (a < b * 2 ^ 24) }
    ensures value { result ≡ nearest_whole a b }
    ensures upper_bound { result ≤ 2 ^ 24 }
{
    let q = a / b;
    let twice = a % b * 2;
    match twice.cmp(&b) {
        Ordering::Less => q,
        Ordering::Equal => q + q % 2,
        Ordering::Greater => q + 1,
    }
}

// The f32 nearest to a / b times 2^k: a is doubled until the quotient has 24 binary digits, which stand below the exponent field. A `while`, since how often that is depends on a and b.
pub fn nearest(a: usize, b: usize, k: u32) -> f32
    requires { (0 < a) × (a < b * 2 ^ 24) × (b ≤ 2 ^ 34) × (k ≤ 34) }
    ensures value { result ≡ of_units (nearest_units (a * 2 ^ (k + 149)) b) }
    ensures usable { Usable result × (usable (nearest_units (a * 2 ^ (k + 149)) b) ≡ true) }
{
    let least = b * 8388608;
    let mut top = a;
    let mut dropped = k + 149;
    while top < least {
        top *= 2;
        dropped -= 1;
    }
    f32::from_bits(dropped * FIELD + nearest_whole(top, b) as u32)
}
