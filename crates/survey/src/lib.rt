// What is asked of a row's four-byte pixels by a reading: how many are black, how many show light at an exponent byte outside 97 to 159, and which are the darkest and the brightest.
#![tactic(auto)]

pub mod stops;

ghost use Rattle.std.specs.Prelude.{◌≡◌, ◌+◌, ◌-◌, ◌*◌, ◌/◌, ◌<◌, ◌≤◌, length};
ghost use Rattle.survey.specs.Survey.{none, times, seen_times, Alike, survey_of};

use pixel::Rgbe;
use steps::Reading;

// What was found so far. Before a pixel that shows light was met, the darkest and the brightest are 0, 0, 0, 0.
#[derive(Clone, Copy, Debug, PartialEq, Eq)]
pub struct Totals {
    pub black: usize,
    pub masked: usize,
    pub darkest: Rgbe,
    pub brightest: Rgbe,
}

impl Default for Totals {
    ghost is_default = { λ totals. totals ≡ none };

    // Before the first row.
    fn default() -> Totals {
        let zeros = Rgbe {
            r: 0,
            g: 0,
            b: 0,
            e: 0,
        };
        Totals {
            black: 0,
            masked: 0,
            darkest: zeros,
            brightest: zeros,
        }
    }
}

impl Totals {
    // The totals with n pixels more that are the same.
    #[tactic(auto, unfolding(crate::specs::Survey::seen_times))]
    fn with_pixels(self, reading: Reading, q: Rgbe, n: usize) -> Totals
        requires { (self.black + n < 18446744073709551616) × (self.masked + n < 18446744073709551616) }
        ensures value { result ≡ seen_times reading n q self }
        ensures black_bound { (result.black ≤ self.black + n) × (result.masked ≤ self.masked + n) }
    {
        Totals {
            black: self.black + times(light::is_black(reading, q), n),
            masked: self.masked + times(light::is_masked(reading, q), n),
            darkest: light::darker(reading, self.darkest, q),
            brightest: light::brighter(reading, self.brightest, q),
        }
    }

    // The totals with the pixels of a row more.
    pub fn row(self, reading: Reading, store: &[u8]) -> Totals
        requires { (self.black + length store.now / 4 < 18446744073709551616) × (self.masked + length store.now / 4 < 18446744073709551616) }
        ensures value { result ≡ survey_of reading store.now 0 (length store.now / 4) self }
        ensures black_bound { (result.black ≤ self.black + length store.now / 4) × (result.masked ≤ self.masked + length store.now / 4) }
    {
        let n = store.len() / 4;
        let mut totals = self;
        let mut k = 0;
        // from run to run, not by one: no `for`
        while k < n {
            let end = run_end(store, k);
            totals = totals.with_pixels(reading, pixel::rgbe_at(store, 4 * k), end - k);
            k = end;
        }
        totals
    }
}

// So many where it is so.
fn times(b: bool, n: usize) -> usize
    ensures value { result ≡ times b n }
    ensures upper_bound { result ≤ n }
{
    if b { n } else { 0 }
}

// Where those pixels end that are the same as pixel k, which is one of them.
#[tactic(auto, using(crate::proofs::Laws::Survey::alike_one, crate::proofs::Laws::Survey::alike_next))]
fn run_end(store: &[u8], k: usize) -> usize
    requires { k < length store.now / 4 }
    ensures within { (k < result) × (result ≤ length store.now / 4) }
    ensures alike { Alike store.now (4 * k) (result - k) }
{
    let n = store.len() / 4;
    let first = pixel::rgbe_at(store, 4 * k);
    for j in k + 1..n {
        if pixel::rgbe_at(store, 4 * j) != first {
            return j;
        }
    }
    n
}
