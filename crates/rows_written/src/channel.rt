// One channel as it is written: its length and its bytes are loops over the same parts.
// An output and the place in it stay two parameters, since nearly each call is for another place.
ghost use Rattle.std.specs.Prelude.{◌≡◌, ℕ, ◌+◌, ◌*◌, ◌<◌, ◌≤◌, length, get_or};
ghost use Rattle.steps.specs.Place.{spread};
ghost use Rattle.channels_written.specs.Channel.{literals, code, channel};
ghost use Rattle.channels_written.specs.Inner.{run_of};
ghost use Rattle.rows_written.specs.Inner.{Stored};

use channels_written::Part;

// How many bytes a run of n takes: none where n is 0.
fn run_length(n: usize) -> usize
    ensures { (result ≤ 2) × ((v : ℕ) → result ≡ length (run_of v n)) }
{
    if n == 0 { 0 } else { 2 }
}

// How many bytes the channel of w pixels that starts at `from` is written in.
// A while, since each step is as long as its part; and a loop of its own beside that of `write_channel`: one loop over
// a trait of what counts and what stores would need the trait, two types and four methods for these lines.
pub(crate) fn channel_length(px: &[u8], from: usize, w: usize) -> usize
    requires { from + 4 * w < length px.now + 4 }
    ensures { result ≡ length (code (channel px.now from w)) }
{
    let mut at = from;
    let mut left = w;
    let mut n = 0;
    while 0 < left {
        let Part {
            literals,
            short,
            long,
        } = channels_written::part_at(px, at, left);
        n += literals + literals.div_ceil(128) + run_length(short) + run_length(long);
        let used = literals + short + long;
        at += 4 * used;
        left -= used;
    }
    n
}

// Stores n bytes of the channel that starts at `at`, from `to` on.
// Not one with `put_known` of `channels_read`: there the places stored to are four apart, here those read.
#[tactic(auto, using(crate::proofs::Laws::Store::copy_start, crate::proofs::Laws::Store::copy_next))]
fn copy_bytes(px: &[u8], at: usize, n: usize, out: &mut [u8], to: usize)
    requires { (at + 4 * n < length px.now + 4) × (to + n ≤ length out.old) }
    ensures { out.new ≡ spread 1 out.old to (channel px.now at n) }
{
    for k in 0..n {
        out[to + k] = px[at + 4 * k];
    }
}

// Stores n bytes of a channel as literals, and returns the place after them.
// A while, since a packet is stored in each step, of 128 bytes or of those that are left.
fn write_literals(px: &[u8], at: usize, n: usize, out: &mut [u8], to: usize) -> usize
    requires { (at + 4 * n < length px.now + 4) × (to + length (literals 0 (channel px.now at n)) ≤ length out.old) }
    ensures { Stored out.old to (literals 0 (channel px.now at n)) result out.new }
{
    let mut a = at;
    let mut left = n;
    let mut o = to;
    while 0 < left {
        let c = left.min(128);
        out[o] = c as u8;
        copy_bytes(px, a, c, out, o + 1);
        o += 1 + c;
        a += 4 * c;
        left -= c;
    }
    o
}

// Stores a run of n times the byte at `at`, which is nothing where n is 0, and returns the place after it.
fn write_run(px: &[u8], at: usize, n: usize, out: &mut [u8], to: usize) -> usize
    requires { (n ≤ 127) × (at + 4 * n < length px.now + 4) × (to + length (run_of (get_or px.now at 0) n) ≤ length out.old) }
    ensures { Stored out.old to (run_of (get_or px.now at 0) n) result out.new }
{
    if n == 0 {
        return to;
    }
    out[to] = (128 + n) as u8;
    out[to + 1] = px[at];
    to + 2
}

// Stores the channel of w pixels that starts at `from`, and returns the place after it. A while, as in `channel_length`.
pub(crate) fn write_channel(px: &[u8], from: usize, w: usize, out: &mut [u8], to: usize) -> usize
    requires { (from + 4 * w < length px.now + 4) × (to + length (code (channel px.now from w)) ≤ length out.old) }
    ensures { Stored out.old to (code (channel px.now from w)) result out.new }
{
    let mut at = from;
    let mut left = w;
    let mut o = to;
    while 0 < left {
        let Part {
            literals,
            short,
            long,
        } = channels_written::part_at(px, at, left);
        o = write_literals(px, at, literals, out, o);
        o = write_run(px, at + 4 * literals, short, out, o);
        o = write_run(px, at + 4 * (literals + short), long, out, o);
        let used = literals + short + long;
        at += 4 * used;
        left -= used;
    }
    o
}
