// Numbers in decimal, and a pixel's light.
ghost use Rattle.std.specs.Prelude.{◌≡◌, ◌^◌, ◌≤◌, ◌<◌};

use decimal::leading::leading;
use light::Light;
use pixel::Rgbe;
use std::fmt;
use steps::Reading;

// The number n / 2^j, which has j decimals.
#[derive(Clone, Copy)]
pub(crate) struct Ratio {
    n: usize,
    j: usize,
    ghost few: { j ≤ 40 },
}

impl Ratio {
    // The number m / 2^j with its least j, if that is at most 40.
    fn reduced(m: usize, j: usize) -> Option<Ratio> {
        let ratio = decimal::reduced(m, j);
        if 40 < ratio.j {
            return None;
        }
        Some(Ratio {
            n: ratio.m,
            j: ratio.j,
        })
    }

    // 2^j.
    #[tactic(auto, using(crate::proofs::Laws::Room::power_is, crate::proofs::Laws::Room::power_bounds))]
    fn unit(&self) -> usize
        ensures value { result ≡ 2 ^ self.now.j }
        ensures result_nonzero { (0 < result) × (result ≤ 2000000000000) }
    {
        1usize << self.j
    }
}

impl fmt::Display for Ratio {
    fn fmt<W: fmt::Write>(&self, f: &mut fmt::Formatter<W>) -> fmt::Result {
        let unit = self.unit();
        write!(f, "{}", self.n / unit)?;
        if self.j == 0 {
            return Ok(());
        }
        // lent for the digits that there are, and gone after they are written
        let mut store = [0u8; 40];
        let decimals = &mut store[..self.j];
        decimal::put_decimals(self.n % unit, unit, decimals);
        write!(f, ".")?;
        for x in decimals.iter() {
            write!(f, "{}", char::from(*x))?;
        }
        Ok(())
    }
}

// The first nine digits of a number, of which the first stands before the point, and a power of ten: digits times 10^more over 10^less.
#[derive(Clone, Copy)]
pub(crate) struct Rounded {
    digits: usize,
    more: usize,
    less: usize,
    ghost few: { (more ≤ 112) × (less ≤ 149) },
}

impl Rounded {
    // The number m / 2^j.
    #[tactic(auto, using(decimal::proofs::Laws::Leading::short_fifths))]
    fn small(m: usize, j: usize) -> Rounded
        requires { (m < 16777216) × (j ≤ 149) }
    {
        let lead = leading(m, 5, j);
        Rounded {
            digits: lead.digits,
            more: lead.more,
            less: j,
        }
    }

    // The number m times 2^k.
    #[tactic(auto, using(decimal::proofs::Laws::Leading::short_doubles))]
    fn large(m: usize, k: usize) -> Rounded
        requires { (m < 16777216) × (k ≤ 118) }
    {
        let lead = leading(m, 2, k);
        Rounded {
            digits: lead.digits,
            more: lead.more,
            less: 0,
        }
    }
}

impl fmt::Display for Rounded {
    fn fmt<W: fmt::Write>(&self, f: &mut fmt::Formatter<W>) -> fmt::Result {
        let power = power_of(self.more + 8, self.less);
        write!(
            f,
            "{}.{:08}e{power}",
            self.digits / 100000000,
            self.digits % 100000000
        )
    }
}

// The difference of two small numbers.
fn power_of(more: usize, less: usize) -> isize
    requires { (more ≤ 1000) × (less ≤ 1000) }
{
    more as isize - less as isize
}

// A number in decimal: exactly, or where that takes more digits than are read, its first nine and a power of ten.
#[derive(Clone, Copy)]
pub(crate) enum Decimal {
    Whole(usize),
    Ratio(Ratio),
    Rounded(Rounded),
}

impl fmt::Display for Decimal {
    fn fmt<W: fmt::Write>(&self, f: &mut fmt::Formatter<W>) -> fmt::Result {
        match self {
            Decimal::Whole(n) => write!(f, "{n}"),
            Decimal::Ratio(ratio) => write!(f, "{ratio}"),
            Decimal::Rounded(rounded) => write!(f, "{rounded}"),
        }
    }
}

impl Decimal {
    // The number m / 2^j: exactly where it has at most 40 decimals.
    fn fraction(m: usize, j: usize) -> Decimal
        requires { (m < 16777216) × (j ≤ 149) }
    {
        match Ratio::reduced(m, j) {
            Some(ratio) => Decimal::Ratio(ratio),
            None => Decimal::Rounded(Rounded::small(m, j)),
        }
    }
}

// A pixel's light, exactly where it fits 64 bits and a step has at most 40 decimals; none where it is black.
pub(crate) fn light(reading: Reading, q: Rgbe) -> Option<Decimal> {
    let Light { count, shift, .. } = Light::of(reading, q);
    if count == 0 {
        return None;
    }
    Some(if 204 < shift {
        Decimal::Rounded(Rounded::large(count, shift - 149))
    } else if 149 <= shift {
        Decimal::Whole(count << (shift - 149))
    } else if 109 <= shift {
        Decimal::fraction(count, 149 - shift)
    } else {
        Decimal::Rounded(Rounded::small(count, 149 - shift))
    })
}

// The whole number of units that the bits of a float stand for, before they are shifted.
fn units_of(bits: u32) -> usize
    ensures { result < 16777216 }
{
    let low = (bits % 8388608) as usize;
    if bits / 8388608 % 256 == 0 {
        return low;
    }
    low + 8388608
}

// By how many places the units are shifted; a unit is 2^-149.
fn shift_of(bits: u32) -> usize
    ensures { result ≤ 254 }
{
    (bits / 8388608 % 256).saturating_sub(1) as usize
}

// A float above 0 in decimal: exactly where it fits 64 bits or has at most 40 decimals.
// It does not share the limits of `light`: what either prints stays as it was.
pub(crate) fn float(x: f32) -> Decimal {
    let bits = if x.is_nan() { 0 } else { x.to_bits() };
    let m = units_of(bits);
    let s = shift_of(bits);
    if 189 < s {
        Decimal::Rounded(Rounded::large(m, s - 149))
    } else if 149 <= s {
        Decimal::Whole(m << (s - 149))
    } else {
        Decimal::fraction(m, 149 - s)
    }
}
