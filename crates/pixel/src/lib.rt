// Four bytes to three samples and back.
#![tactic(auto)]

ghost use Rattle.std.specs.Prelude.{◌≡◌, false, ◌+◌, ◌/◌, ◌^◌, ◌<◌, ◌≤◌, max, T, length};
ghost use Rattle.std.specs.Float.Ieee.{size};
ghost use Rattle.pixel.specs.Units.{of_units, mag};
ghost use Rattle.pixel.specs.Rgbe.{
  crate_shift,
  count_of,
  shift_of,
  scale_of,
  units_of,
  rgbe_at,
  pixel_of,
  peak,
  dark,
  byte_of,
  too_bright,
  bytes_of,
  packed_of,
};
ghost use Rattle.pixel.specs.Inner.{bright, near, AsWord};
ghost use Rattle.pixel.specs.declared.Rgbe.{Rgbe};

use steps::Reading;

// Three samples.
#[derive(Clone, Copy, Debug, PartialEq)]
pub struct Pixel {
    pub r: f32,
    pub g: f32,
    pub b: f32,
}

// Three mantissas and the exponent byte.
#[derive(Clone, Copy, Debug, PartialEq, Eq)]
pub struct Rgbe {
    pub r: u8,
    pub g: u8,
    pub b: u8,
    pub e: u8,
}

// 2^127: a sample from here on is too bright.
const TOO_BRIGHT: f32 = 170141183460469231731687303715884105728.0;

// 2^126: a pixel whose samples are none above it is not too bright.
const NEAR: f32 = 85070591730234615865843651857942052864.0;

// The f32 nearest to 1e-32: a pixel whose samples are none above it is black.
const DARK: f32 = 1e-32;

// 2^23: one in the exponent field of an f32's bits.
const FIELD: u32 = 8388608;

// 2^23: from here on an f32 is a whole number.
const WHOLE: f32 = 8388608.0;

// 2^j times 2^-149, where it has an exponent field.
fn power(j: u32) -> f32
    requires { (22 < j) × (j < 277) }
    ensures { result ≡ of_units (2 ^ j) }
{
    f32::from_bits((j - 22) * FIELD)
}

// 2^j times 2^-149: below an exponent field it is one digit.
fn any_power(j: u32) -> f32
    requires { j < 277 }
    ensures { result ≡ of_units (2 ^ j) }
{
    if j < 23 {
        f32::from_bits(1 << j)
    } else {
        power(j)
    }
}

// A step is 2^shift times 2^-149 at the exponent byte e, by the crate's rule, if e is not 0.
fn crate_shift(e: u8) -> u32
    ensures { result ≡ crate_shift e }
{
    if e > 128 {
        141 + (u32::from(e) - 128) % 32
    } else {
        141 - (128 - u32::from(e)) % 32
    }
}

// A step of the crate reading, or half a step of the document reading, is 2^shift times 2^-149 at the exponent byte e, if e is not 0.
pub fn shift(reading: Reading, e: u8) -> u32
    ensures { result ≡ shift_of reading e }
{
    // By the reading that a caller gives (DECISIONS 74).
    match reading {
        Reading::Crate => crate_shift(e),
        Reading::Document => u32::from(e) + 12,
    }
}

// How many of them a sample of the mantissa m is.
pub fn count(reading: Reading, m: u8) -> u32
    ensures { result ≡ count_of reading m }
{
    // By the reading that a caller gives (DECISIONS 74).
    match reading {
        Reading::Crate => u32::from(m),
        Reading::Document => 2 * u32::from(m) + 1,
    }
}

// What one of them is worth at the exponent byte e. The crate's scales have an exponent field, and are not tested for one.
fn scale(reading: Reading, e: u8) -> f32
    ensures { result ≡ of_units (scale_of reading e) }
{
    if e == 0 {
        return 0.0;
    }
    // By the reading that a caller gives (DECISIONS 74).
    match reading {
        Reading::Crate => power(crate_shift(e)),
        Reading::Document => any_power(u32::from(e) + 12),
    }
}

// The four bytes of a word.
fn parts_of(w: u32) -> Rgbe
    ensures { (q : Rgbe) → AsWord q w → result ≡ q }
{
    let [r, g, b, e] = w.to_le_bytes();
    Rgbe { r, g, b, e }
}

// The four bytes of the pixel from a place on.
pub fn rgbe_at(bytes: &[u8], i: usize) -> Rgbe
    requires { i + 4 ≤ length bytes.now }
    ensures { result ≡ rgbe_at bytes.now i }
{
    parts_of(u32::from_le_bytes([bytes[i], bytes[i + 1], bytes[i + 2], bytes[i + 3]]))
}

// Four bytes to three samples, by a reading.
pub fn from_bytes(reading: Reading, q: Rgbe) -> Pixel
    ensures { result ≡ pixel_of (units_of reading) q }
{
    let worth = scale(reading, q.e);
    Pixel {
        r: (count(reading, q.r) as f32) * worth,
        g: (count(reading, q.g) as f32) * worth,
        b: (count(reading, q.b) as f32) * worth,
    }
}

// The larger of a number that is not negative and any sample.
// Not f32::max: by its clause it may answer -0.0, which is not bright, and it compares twice.
fn brighter(v: f32, x: f32) -> f32
    requires { T (bright v) }
    ensures { T (bright result) × (mag result ≡ max (mag v) (mag x)) }
{
    if v < x { x } else { v }
}

// The largest sample that is a number, and 0 where none is above 0.
fn largest(p: Pixel) -> f32
    ensures { T (bright result) × (mag result ≡ peak p) }
{
    brighter(brighter(brighter(0.0, p.r), p.g), p.b)
}

// Whether the pixel's largest sample is 2^127 or more.
pub fn is_too_bright(p: Pixel) -> bool
    ensures { result ≡ too_bright p }
{
    !(largest(p) < TOO_BRIGHT)
}

// Whether a sample is above 2^126, so that it may be too bright.
pub fn is_near(x: f32) -> bool
    ensures { result ≡ near x }
{
    NEAR < x
}

// e + 149, where 2^(e-1) <= v < 2^e: from the exponent field of the bits.
fn digits_of(v: f32) -> u32
    requires fact_1 { T (bright v) }
    requires fact_2 { dark < mag v }
    requires fact_3 { mag v < 2 ^ 276 }
    ensures { result ≡ size (mag v) }
{
    v.to_bits() / FIELD + 23
}

// A number below 256, rounded down: plus 2^23 it becomes a whole number next to it, which ends the bits of the sum.
fn round_down(y: f32) -> u32
    requires fact_1 { T (bright y) }
    requires fact_2 { mag y / 2 ^ 149 < 256 }
    ensures { result ≡ mag y / 2 ^ 149 }
{
    let sum = y + WHOLE;
    let near = sum.to_bits() % 512;
    if y < sum - WHOLE { near - 1 } else { near }
}

// A sample times 2^(8-e), rounded down, and 0 for one that is not above 0. `digits` is e + 149.
fn byte_of(x: f32, digits: u32) -> u32
    requires fact_1 { 43 ≤ digits }
    requires fact_2 { digits ≤ 276 }
    requires fact_3 { mag x < 2 ^ digits }
    ensures { (result < 256) × (result ≡ byte_of digits (mag x)) }
{
    round_down(brighter(0.0, x) * power(306 - digits))
}

// A pixel's four bytes as one word, the first lowest: four bytes of one word are stored at once.
// from_le_bytes would be no plainer, with a cast for each of the four.
fn word_of(p: Pixel) -> u32
    requires { peak p < 2 ^ 276 }
    ensures { AsWord (bytes_of p) result }
{
    let v = largest(p);
    if DARK < v {
        let digits = digits_of(v);
        let r = byte_of(p.r, digits);
        let g = byte_of(p.g, digits);
        let b = byte_of(p.b, digits);
        r + g * 256 + b * 65536 + (digits - 21) * 16777216
    } else {
        0
    }
}

// Three samples that are not too bright to four bytes, by the documents.
pub fn pack(p: Pixel) -> Rgbe
    requires { too_bright p ≡ false }
    ensures { result ≡ bytes_of p }
{
    parts_of(word_of(p))
}

// Three samples to four bytes, and none of a pixel that is too bright.
#[tactic(auto, unfolding(crate::specs::Rgbe::packed_of))]
pub fn to_bytes(p: Pixel) -> Option<Rgbe>
    ensures { result ≡ packed_of p }
{
    if is_too_bright(p) {
        None
    } else {
        Some(pack(p))
    }
}
