// Light in decimal, exactly: a whole number over a power of two has as many decimals as the power has twos.
#![tactic(auto)]

pub mod leading;

ghost use Rattle.std.specs.Prelude.{◌≡◌, ◌<◌, ◌≤◌, length};
ghost use Rattle.decimal.specs.Decimal.{Reduced, decimals_of};

// The number m / 2^j.
#[derive(Clone, Copy, Debug, PartialEq, Eq)]
pub struct Ratio {
    pub m: usize,
    pub j: usize,
}

// The same number with the least j.
pub fn reduced(m: usize, j: usize) -> Ratio
    ensures { Reduced m j result.m result.j }
{
    if m == 0 {
        return Ratio { m: 0, j: 0 };
    }
    let twos = (m.trailing_zeros() as usize).min(j);
    Ratio {
        m: m >> twos,
        j: j - twos,
    }
}

// Stores the first decimals of rest / unit, which is below 1.
pub fn put_decimals(mut rest: usize, unit: usize, out: &mut [u8])
    requires { (unit ≤ 1000000000000000000) × (rest < unit) }
    ensures { out.new ≡ decimals_of rest unit (length out.old) }
{
    for decimal in out.iter_mut() {
        *decimal = b'0' + (10 * rest / unit) as u8;
        rest = 10 * rest % unit;
    }
}
