// Counts by the document reading.
ghost use Rattle.std.specs.Prelude.{◌≡◌, ◌+◌, ◌*◌, ◌≤◌, ◌<◌, ltb, length, get_or};
ghost use Rattle.steps.specs.Loop.{halt};
ghost use Rattle.steps.specs.declared.refusal.Reason.TheVariants.{BytesEnd};
ghost use Rattle.channels_read.specs.Channel.{chan, span_taken, behind, lacking, document_count, counted};

use crate::channel::Counts;
use crate::span;
use crate::span::Span;
use steps::refusal::Reason;

// Whether a byte is missing of those that a count takes.
#[tactic(auto, using(crate::proofs::Laws::Channel::lacks_run, crate::proofs::Laws::Channel::lacks_literals))]
fn lacks(src: &[u8], p: usize, c: usize, n: usize) -> bool
    requires { p < length src.now }
    ensures { result ≡ ltb (behind src.now p) (span_taken c n) }
{
    let there = src.len() - (p + 1);
    if 128 < c { there < 1 } else { there < n }
}

// The count c at p, of which a byte is missing: literals that are there.
#[tactic(auto, using(crate::proofs::Laws::Channel::put_none, crate::proofs::Laws::Channel::put_some))]
fn put_lacking(src: &[u8], p: usize, store: &mut [u8], channel: usize, done: usize, c: usize)
    requires { (p < length src.now) × (channel < 4) × (4 * (done + behind src.now p) ≤ length store.old) × (c ≡ get_or src.now p 0) }
    ensures { counted src.now channel (chan p done store.old) (lacking src.now p c) ≡ halt (Err BytesEnd, store.new) }
{
    if 128 < c {
        return;
    }
    let there = src.len() - (p + 1);
    span::put(src, p, store, channel, done, c, there);
}

// A count is taken whole, or the row is at fault.
pub(crate) struct DocumentCounts;

impl Counts for DocumentCounts {
    ghost rule = { document_count };

    fn put(
        src: &[u8],
        p: usize,
        store: &mut [u8],
        channel: usize,
        done: usize,
        width: usize,
    ) -> Result<Span, Reason> {
        let c = usize::from(src[p]);
        let n = span::length(c);
        if width - done < n {
            return Err(Reason::BrokenRow);
        }
        if lacks(src, p, c, n) {
            put_lacking(src, p, store, channel, done, c);
            return Err(Reason::BytesEnd);
        }
        Ok(span::put(src, p, store, channel, done, c, n))
    }
}
