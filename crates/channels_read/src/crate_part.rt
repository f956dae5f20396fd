// Counts by the crate reading.
ghost use Rattle.std.specs.Prelude.{◌≡◌, ◌*◌, ◌≤◌, ◌<◌, length};
ghost use Rattle.channels_read.specs.Channel.{crate_count};

use crate::channel::Counts;
use crate::span;
use crate::span::Span;
use steps::refusal::Reason;

// A count stops at the row's end.
pub(crate) struct CrateCounts;

impl Counts for CrateCounts {
    ghost rule = { crate_count };

    fn put(
        src: &[u8],
        p: usize,
        store: &mut [u8],
        channel: usize,
        done: usize,
        width: usize,
    ) -> Result<Span, Reason> {
        let c = usize::from(src[p]);
        let n = span::length(c).min(width - done);
        Ok(span::put(src, p, store, channel, done, c, n))
    }
}
