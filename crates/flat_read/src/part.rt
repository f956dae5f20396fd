// A flat part, by a rule for its pixels 1, 1, 1, n and for missing bytes.
ghost use Rattle.std.specs.Prelude.{◌≡◌, ℕ, ◌+◌, ◌*◌, ◌-◌, ◌≤◌, ◌<◌, length};
ghost use Rattle.flat_read.specs.Flat.{FlatRule, flat, is_repeat, flat_turn, flat_of};
ghost use Rattle.flat_read.specs.Inner.{turn_of, Fits, Within};

use steps::Taken;
use steps::refusal::Reason;

// How far a part is: the place in the store, how many pixels are wanted, and how many repeats stand directly ahead.
#[derive(Clone, Copy)]
pub(crate) struct Ahead {
    pub place: usize,
    pub wanted: usize,
    pub repeats: usize,
}

// What a reading does in a flat part.
pub(crate) trait Pixels {
    ghost rule: { FlatRule };

    // A pixel of which bytes are missing.
    fn missing(src: &[u8], p: usize, store: &mut [u8], place: usize)
        requires { (length src.now - p < 4) × (place + 4 ≤ length store.old) }
        ensures { (wanted repeats : ℕ) → store.new ≡ rule.missing src.now (flat p place wanted repeats store.old) };

    // A pixel 1, 1, 1, n, of which none is missing.
    fn ones(src: &[u8], p: usize, store: &mut [u8], ahead: Ahead) -> Result<Ahead, Reason>
        requires { (p + 4 ≤ length src.now) × (0 < ahead.wanted) × Fits (length store.old) p ahead }
        ensures store_after { turn_of p result store.new ≡ rule.ones src.now (flat p ahead.place ahead.wanted ahead.repeats store.old) }
        ensures within { Within (length store.old) p result };
}

// Whether the pixel at p starts 1, 1, 1.
#[tactic(auto, unfolding(crate::specs::Flat::is_repeat))]
fn is_repeat(src: &[u8], p: usize) -> bool
    requires { p + 4 ≤ length src.now }
    ensures { result ≡ is_repeat src.now p }
{
    src[p] == 1 && src[p + 1] == 1 && src[p + 2] == 1
}

// The next pixel of the part, whose four bytes are there.
fn pixel<P: Pixels>(src: &[u8], p: usize, store: &mut [u8], ahead: Ahead) -> Result<Ahead, Reason>
    requires { (p + 4 ≤ length src.now) × (0 < ahead.wanted) × Fits (length store.old) p ahead }
    ensures store_after { turn_of p result store.new ≡ flat_turn P.rule src.now (flat p ahead.place ahead.wanted ahead.repeats store.old) }
    ensures within { Within (length store.old) p result }
{
    if is_repeat(src, p) {
        return P::ones(src, p, store, ahead);
    }
    steps::put_bytes(src, p, store, ahead.place, 4);
    Ok(Ahead {
        place: ahead.place + 4,
        wanted: ahead.wanted - 1,
        repeats: 0,
    })
}

// The flat part that starts at byte start of the store. A `while`, since one pixel 1, 1, 1, n stands for many.
pub(crate) fn read<P: Pixels>(
    src: &[u8],
    at: usize,
    store: &mut [u8],
    start: usize,
    wanted: usize,
) -> Taken
    requires { (start + 4 * wanted ≤ length store.old) × (wanted ≤ 65535) }
    ensures { (result, store.new) ≡ flat_of P.rule src.now at store.old start wanted }
{
    let mut p = at;
    let mut ahead = Ahead {
        place: start,
        wanted,
        repeats: 0,
    };
    while 0 < ahead.wanted {
        if src.len().saturating_sub(p) < 4 {
            P::missing(src, p, store, ahead.place);
            return Err(Reason::BytesEnd);
        }
        ahead = pixel::<P>(src, p, store, ahead)?;
        p += 4;
    }
    Ok(p)
}
