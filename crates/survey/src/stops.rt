// How many pixels have the document's light in each power of two.
ghost use Rattle.std.specs.Prelude.{◌≡◌, ◌/◌, ◌<◌, ◌≤◌, length};
ghost use Rattle.survey.specs.Stops.{digits, stop_of, stops_of};

use pixel::Rgbe;
use steps::Reading;

// How many binary digits a byte has.
#[tactic(auto, using(crate::proofs::Laws::Stops::digits_counted))]
fn digits(m: u8) -> usize
    ensures value { result ≡ digits m }
    ensures upper_bound { result ≤ 8 }
{
    8 - m.leading_zeros() as usize
}

// The stop of a pixel: its light is from 2^(stop - 137) to below twice that; 0 where it is black.
#[tactic(auto, unfolding(crate::specs::Stops::stop_of))]
fn stop_of(q: Rgbe) -> usize
    ensures value { result ≡ stop_of q }
    ensures upper_bound { result < 264 }
{
    if light::is_black(Reading::Document, q) {
        return 0;
    }
    usize::from(q.e) + digits(q.r.max(q.g).max(q.b))
}

// Counts the pixels of a row, each at its stop.
pub fn row(store: &[u8], counts: &mut [usize; 264])
    ensures { counts.new ≡ stops_of store.now 0 (length store.now / 4) counts.old }
{
    for i in 0..store.len() / 4 {
        let k = stop_of(pixel::rgbe_at(store, 4 * i));
        counts[k] = counts[k].wrapping_add(1);
    }
}
