// The light of one pixel, as a reading shows it: its largest sample.
#![tactic(auto)]

ghost use Rattle.std.specs.Prelude.{◌≡◌, ◌*◌, ◌^◌, ◌≤◌, ◌<◌, ltb};
ghost use Rattle.pixel.specs.Rgbe.{shift_of};
ghost use Rattle.light.specs.Light.{light_of, top_of, is_black, is_masked, darker, brighter};

use pixel::Rgbe;
use steps::Reading;

// Light in steps, or half steps by the document reading, each 2^shift times 2^-149.
// No derived equality or order: one light may be twice the steps of half the worth.
#[derive(Clone, Copy, Debug)]
pub struct Light {
    pub count: usize,
    pub shift: usize,

    pub ghost few: { count < 512 },
    pub ghost within: { (12 ≤ shift) × (shift ≤ 267) },
}

impl Light {
    // The light of a pixel; none at the exponent byte 0.
    pub fn of(reading: Reading, q: Rgbe) -> Light
        ensures count { result.count ≡ top_of reading q }
        ensures shift { result.shift ≡ shift_of reading q.e }
    {
        Light {
            count: count(reading, q),
            shift: pixel::shift(reading, q.e) as usize,
        }
    }

    // Whether it is less than another. Powers from 2^9 on decide alike.
    #[tactic(auto, using(crate::proofs::Laws::Light::below_shifted))]
    fn is_below(self, other: Light) -> bool
        ensures { result ≡ ltb (self.count * 2 ^ self.shift) (other.count * 2 ^ other.shift) }
    {
        let a = self.shift.saturating_sub(other.shift).min(9);
        let b = other.shift.saturating_sub(self.shift).min(9);
        (self.count << a) < (other.count << b)
    }
}

// How many steps, or half steps by the document reading, the light is; 0 at the exponent byte 0.
#[tactic(auto, using(crate::proofs::Laws::Light::top_none, crate::proofs::Laws::Light::top_some, crate::proofs::Laws::Light::count_few))]
pub fn count(reading: Reading, q: Rgbe) -> usize
    ensures value { result ≡ top_of reading q }
    ensures upper_bound { result < 512 }
{
    if q.e == 0 {
        return 0;
    }
    pixel::count(reading, q.r.max(q.g).max(q.b)) as usize
}

// Whether a pixel shows less light than another.
#[tactic(auto, using(crate::proofs::Laws::Light::darker_test))]
fn is_darker(reading: Reading, p: Rgbe, q: Rgbe) -> bool
    ensures { result ≡ ltb (light_of reading p) (light_of reading q) }
{
    Light::of(reading, p).is_below(Light::of(reading, q))
}

// Whether all three samples are 0.
#[tactic(auto, using(crate::proofs::Laws::Light::black_test))]
pub fn is_black(reading: Reading, q: Rgbe) -> bool
    ensures { result ≡ is_black reading q }
{
    count(reading, q) == 0
}

// Whether a pixel shows light, and its exponent byte is outside 97 to 159.
#[tactic(auto, unfolding(crate::specs::Light::is_masked))]
pub fn is_masked(reading: Reading, q: Rgbe) -> bool
    ensures { result ≡ is_masked reading q }
{
    !is_black(reading, q) && !(97..=159).contains(&q.e)
}

// The darker of two pixels, a black one counting for nothing; the first where they are equal.
#[tactic(auto, unfolding(crate::specs::Light::darker))]
pub fn darker(reading: Reading, p: Rgbe, q: Rgbe) -> Rgbe
    ensures { result ≡ darker reading p q }
{
    if is_black(reading, q) {
        p
    } else if is_black(reading, p) || is_darker(reading, q, p) {
        q
    } else {
        p
    }
}

// The brighter of two pixels; the first where they are equal.
#[tactic(auto, unfolding(crate::specs::Light::brighter))]
pub fn brighter(reading: Reading, p: Rgbe, q: Rgbe) -> Rgbe
    ensures { result ≡ brighter reading p q }
{
    if is_darker(reading, p, q) { q } else { p }
}
