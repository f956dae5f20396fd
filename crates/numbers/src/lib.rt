// The eight numbers of an answer, as programs in C and Rust get them: the C interface has numbers for kinds.
#![tactic(auto)]

ghost use Rattle.std.specs.Prelude.{◌≡◌};
ghost use Rattle.steps.specs.Answer.{paper_of};
ghost use Rattle.numbers.specs.Numbers.{Values, colour_of, pattern_of, exposure_of, orientation_of, head_values, single, listed, numbers, counted};

use header::Head;
use stated::{Colour, Exposure};
use steps::refusal::Refusal;
use words::axes::Orientation;

// That there is no such number: it passes 2^64 - 1.
const NONE: u64 = 255;

// What a call that does not refuse returns: six values, behind two zeros.
pub trait Told {
    ghost values: { Self → Values };

    fn told(self) -> [u64; 8]
        ensures { result ≡ listed (values self) };
}

impl Told for Head {
    ghost values = { head_values };

    // What a header says, and the count of bytes taken.
    fn told(self) -> [u64; 8] {
        [
            0,
            0,
            self.width as u64,
            self.height as u64,
            self.taken as u64,
            colour_of(self.colour),
            exposure_of(self.exposure),
            orientation_of(self.orientation),
        ]
    }
}

impl Told for usize {
    ghost values = { single };

    // One number, where the count of bytes taken stands.
    fn told(self) -> [u64; 8] {
        [0, 0, 0, 0, self as u64, 0, 0, 0]
    }
}

// The colour kind as a number.
fn colour_of(colour: Option<Colour>) -> u64
    ensures { result ≡ colour_of colour }
{
    match colour {
        None => 0,
        Some(Colour::Rgbe) => 1,
        Some(Colour::Xyze) => 2,
    }
}

// The bit pattern of a number, and 0 for what is none.
// `sky` has the same line and not this crate, which is for C.
#[tactic(auto, unfolding(crate::specs::Numbers::pattern_of))]
fn pattern_of(x: f32) -> u32
    ensures { result ≡ pattern_of x }
{
    if x.is_nan() { 0 } else { x.to_bits() }
}

// The exposure as a number.
fn exposure_of(exposure: Exposure) -> u64
    ensures { result ≡ exposure_of exposure }
{
    match exposure {
        Exposure::NotStated => 0,
        Exposure::Stated(x) => u64::from(pattern_of(x)),
    }
}

// The orientation as a number: that of the Orientation tag of TIFF and EXIF.
#[tactic(auto, unfolding(crate::specs::Numbers::orientation_of))]
fn orientation_of(o: Orientation) -> u64
    ensures { result ≡ orientation_of o }
{
    match (o.columns, o.upward, o.leftward) {
        (false, false, false) => 1,
        (false, false, true) => 2,
        (false, true, true) => 3,
        (false, true, false) => 4,
        (true, false, false) => 5,
        (true, false, true) => 6,
        (true, true, true) => 7,
        (true, true, false) => 8,
    }
}

// What a call that may refuse answers: what it returns, or the refusal's number and place.
pub fn answer<T: Told>(told: Result<T, Refusal>) -> [u64; 8]
    ensures { result ≡ numbers T.values (paper_of told) }
{
    match told {
        Ok(value) => value.told(),
        Err(Refusal { reason, place }) => [
            u64::from(u8::from(reason)),
            place as u64,
            0,
            0,
            0,
            0,
            0,
            0,
        ],
    }
}

// A number, or that there is none.
pub fn amount(told: Option<usize>) -> [u64; 8]
    ensures { result ≡ numbers single (counted told) }
{
    match told {
        Some(n) => n.told(),
        None => [NONE, 0, 0, 0, 0, 0, 0, 0],
    }
}
