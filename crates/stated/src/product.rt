// Exposures multiplied.
ghost use Rattle.std.specs.Prelude.{◌≡◌, T};
ghost use Rattle.pixel.specs.Units.{mag};
ghost use Rattle.pixel.specs.Inner.{bright};
ghost use Rattle.stated.specs.Rounded.{usable, product};
ghost use Rattle.stated.specs.Said.{together};
ghost use Rattle.stated.specs.Inner.{usable_factor, Usable, UsableFactor, SoundSoFar};

use crate::Exposure;

// The bits of plus infinity.
const INFINITE: u32 = 2139095040;

// Whether a number that is not negative is above zero and finite.
fn is_usable(x: f32) -> bool
    requires { T (bright x) }
    ensures { result ≡ usable (mag x) }
{
    0.0 < x && x < f32::from_bits(INFINITE)
}

// The product, rounded once; none where it is zero or infinite.
fn times(x: f32, y: f32) -> Option<f32>
    requires { Usable x × Usable y }
    ensures value { result ≡ usable_factor (product (mag x) (mag y)) }
    ensures usable_factor { UsableFactor result }
{
    let z = x * y;
    if is_usable(z) { Some(z) } else { None }
}

// The exposure with a line more, which says x.
pub fn together(before: Exposure, x: f32) -> Option<f32>
    requires { SoundSoFar before × Usable x }
    ensures value { result ≡ usable_factor (together before (mag x)) }
    ensures usable_factor { UsableFactor result }
{
    match before {
        Exposure::Stated(so_far) => times(so_far, x),
        Exposure::NotStated => Some(x),
    }
}
