// A count, and the bytes that it puts into its channel.
ghost use Rattle.std.specs.Prelude.{◌≡◌, ◌+◌, ◌*◌, ◌≤◌, ◌<◌, length};
ghost use Rattle.channels_read.specs.Channel.{chan, span_length, span_of};

use crate::fourth;

// Where a count and its bytes end: in the input, and in the channel.
#[derive(Clone, Copy)]
pub(crate) struct Span {
    pub next: usize,
    pub done: usize,
}

// How many bytes of the channel a count asks for.
#[tactic(auto, using(crate::proofs::Laws::Channel::length_run, crate::proofs::Laws::Channel::length_literals))]
pub(crate) fn length(c: usize) -> usize
    ensures { result ≡ span_length c }
{
    if 128 < c { c - 128 } else { c }
}

// The count c at p, with n of the bytes that it asks for.
#[tactic(auto, using(crate::proofs::Laws::Channel::span_run, crate::proofs::Laws::Channel::span_literals))]
pub(crate) fn put(
    src: &[u8],
    p: usize,
    store: &mut [u8],
    channel: usize,
    done: usize,
    c: usize,
    n: usize,
) -> Span
    requires { (p < length src.now) × (channel < 4) × (4 * (done + n) ≤ length store.old) }
    ensures { chan result.next result.done store.new ≡ span_of src.now channel c n (chan p done store.old) }
{
    let from = channel + 4 * done;
    let q = p + 1;
    let end = if 128 < c {
        fourth::put_run(store, from, n, src.get(q).copied().unwrap_or(0));
        q + 1
    } else {
        fourth::put_literals(src, q, store, from, n);
        q + n
    };
    Span {
        next: end.min(src.len()),
        done: done + n,
    }
}
