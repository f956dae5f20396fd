// One channel, by a rule for its counts.
ghost use Rattle.std.specs.Prelude.{◌≡◌, ◌*◌, ◌≤◌, ◌<◌, length};
ghost use Rattle.channels_read.specs.Channel.{chan, CountRule, counted, channel_of};
ghost use Rattle.channels_read.specs.Inner.{turn_of};

use crate::span::Span;
use steps::Taken;
use steps::refusal::Reason;

// What a reading does with a count.
pub(crate) trait Counts {
    ghost rule: { CountRule };

    // The count at p, with `done` of the bytes of its channel there already.
    fn put(
        src: &[u8],
        p: usize,
        store: &mut [u8],
        channel: usize,
        done: usize,
        width: usize,
    ) -> Result<Span, Reason>
        requires { (p < length src.now) × (channel < 4) × (done < width) × (4 * width ≤ length store.old) }
        ensures { turn_of result store.new ≡ counted src.now channel (chan p done store.old) (rule src.now p done width) };
}

// Every fourth place of the store from the channel's own. A `while`, since a count ends where its bytes do, and the next stands there.
pub(crate) fn read<C: Counts>(
    src: &[u8],
    at: usize,
    store: &mut [u8],
    channel: usize,
    width: usize,
) -> Taken
    requires { (channel < 4) × (4 * width ≤ length store.old) }
    ensures { (result, store.new) ≡ channel_of C.rule src.now at store.old channel width }
{
    let mut p = at;
    let mut done = 0;
    while done < width {
        if src.len() <= p {
            return Err(Reason::BytesEnd);
        }
        let span = C::put(src, p, store, channel, done, width)?;
        p = span.next;
        done = span.done;
    }
    Ok(p)
}
