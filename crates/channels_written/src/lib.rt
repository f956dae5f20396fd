// The scan of a channel: bytes that gather, written as literals or as a short run, and then a long run, or the end.
#![tactic(auto)]

ghost use Rattle.std.specs.Prelude.{◌≡◌, true, ◌+◌, ◌*◌, ◌<◌, ◌≤◌, length};
ghost use Rattle.channels_written.specs.Channel.{channel};
ghost use Rattle.channels_written.specs.Inner.{Four, FourEqual, Equal, Skip, Gathers, Stops, Front, Parted, one_run, part_of, first_part};

// How the front of a channel is written: so many literals, a short run, and a long run of so many bytes.
// A run that is not there has 0 bytes, and no Option: all three are added up.
#[derive(Clone, Copy, Debug, PartialEq, Eq)]
pub struct Part {
    pub literals: usize,
    pub short: usize,
    pub long: usize,
}

// A channel is three parameters and no struct: nearly each call is for another place or length, and would build it anew.

// How far to go past the last two neighbours that differ of the four bytes of a channel from `at` on; 0 where all are equal.
// No Option: 0 is a distance too, and `Skip` of the specs has it as one.
fn skip(px: &[u8], at: usize) -> usize
    requires { at + 12 < length px.now }
    ensures { Skip px.now at result }
{
    if px[at + 12] != px[at + 8] {
        return 3;
    }
    if px[at + 8] != px[at + 4] {
        return 2;
    }
    if px[at + 4] != px[at] {
        return 1;
    }
    0
}

// How many of the `left` bytes of a channel gather before the first four that are equal, or the end.
// A while, since each step is as long as what `skip` finds.
fn gathered(px: &[u8], at: usize, left: usize) -> usize
    requires { at + 4 * left < length px.now + 4 }
    ensures { Gathers (channel px.now at left) result × Stops px.now at left result }
{
    let stop = left.saturating_sub(3);
    let mut h = 0;
    while h < stop {
        let d = skip(px, at + 4 * h);
        if d == 0 {
            return h;
        }
        h += d;
    }
    left
}

// Whether the four bytes of a channel from `at` on are all v.
fn are_all(px: &[u8], at: usize, v: u8) -> bool
    requires { at + 12 < length px.now }
    ensures { result ≡ true → Four px.now at v }
{
    px[at + 12] == v && px[at + 8] == v && px[at + 4] == v && px[at] == v
}

// How many of the first `cap` bytes of a channel are equal, counted by fours, the first four being so.
// A while, since it ends where a `for` by fours would not say.
fn equal_fours(px: &[u8], at: usize, cap: usize) -> usize
    requires { (4 ≤ cap) × (at + 4 * cap < length px.now + 4) × FourEqual px.now at }
    ensures { (4 ≤ result) × (result ≤ cap) × Equal px.now at result }
{
    let v = px[at];
    let stop = cap.saturating_sub(3);
    let mut n = 4;
    while n < stop {
        if are_all(px, at + 4 * n, v) {
            n += 4;
        } else {
            return n;
        }
    }
    n
}

// How many bytes the first run of a channel has, of which `left` bytes are left, the first four equal.
fn run_at(px: &[u8], at: usize, left: usize) -> usize
    requires { (4 ≤ left) × (at + 4 * left < length px.now + 4) × FourEqual px.now at }
    ensures { Front left (channel px.now at left) result }
{
    let v = px[at];
    let cap = left.min(127);
    for n in equal_fours(px, at, cap)..cap {
        if px[at + 4 * n] != v {
            return n;
        }
    }
    cap
}

// Whether h bytes of a channel are one run of 2 or 3.
fn is_one_run(px: &[u8], at: usize, h: usize) -> bool
    requires { at + 4 * h < length px.now + 4 }
    ensures { result ≡ one_run (channel px.now at h) }
{
    match h {
        2 => px[at + 4] == px[at],
        3 => px[at + 4] == px[at] && px[at + 8] == px[at + 4],
        _ => false,
    }
}

// The part whose h bytes gather, and whose long run has `long`.
fn part_of(px: &[u8], at: usize, h: usize, long: usize) -> Part
    requires { at + 4 * h < length px.now + 4 }
    ensures { result ≡ part_of (channel px.now at h) long }
{
    let (literals, short) = if is_one_run(px, at, h) {
        (0, h)
    } else {
        (h, 0)
    };
    Part {
        literals,
        short,
        long,
    }
}

// The part of a channel up to its first run of 4 or more, and that run.
pub fn part_at(px: &[u8], at: usize, left: usize) -> Part
    requires { (0 < left) × (at + 4 * left < length px.now + 4) }
    ensures value { result ≡ first_part (channel px.now at left) }
    ensures parted { Parted left (channel px.now at left) result.literals result.short result.long }
{
    let h = gathered(px, at, left);
    if h == left {
        return part_of(px, at, h, 0);
    }
    let n = run_at(px, at + 4 * h, left - h);
    part_of(px, at, h, n)
}
