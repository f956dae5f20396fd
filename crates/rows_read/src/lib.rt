// One row of the input, read into the row store.
// The input and the place in it stay two parameters: the definitions speak of places in the whole input, and nearly each call goes on at another.
#![tactic(auto)]

mod kind;
mod start;

ghost use Rattle.std.specs.Prelude.{◌≡◌, ◌+◌, ◌*◌, ◌≤◌, length};
ghost use Rattle.rows_read.specs.Row.{mark_of, parts_of, rest_by, row_of};
ghost use Rattle.rows_read.specs.declared.kind.Kind.TheVariants.{Channels};

use kind::Kind;
use steps::refusal::Reason;
use steps::{Reading, Taken};

// The width that the third and the fourth byte of a mark tell.
fn told(high: u8, low: u8) -> usize
    ensures { result ≡ high * 256 + low }
{
    usize::from(u16::from_be_bytes([high, low]))
}

// Whether the mark at a place, whose four bytes are there, will do for rows of that width.
fn is_right(reading: Reading, src: &[u8], at: usize, width: usize) -> bool
    requires { at + 4 ≤ length src.now }
    ensures { result ≡ mark_of reading src.now at width }
{
    // By the reading that a caller gives (DECISIONS 74).
    match reading {
        Reading::Crate => true,
        Reading::Document => told(src[at + 2], src[at + 3]) == width,
    }
}

// A row whose mark ends before `next`.
fn read_marked(
    reading: Reading,
    src: &[u8],
    at: usize,
    next: usize,
    store: &mut [u8],
    width: usize,
) -> Taken
    requires { (4 * width ≤ length store.old) × (at + 4 ≤ length src.now) }
    ensures { (result, store.new) ≡ rest_by (parts_of reading) src.now at width (Channels next) store.old }
{
    if is_right(reading, src, at, width) {
        return channels_read::read_channels(reading, src, next, store, width);
    }
    Err(Reason::BrokenRow)
}

// The row from a place of the input on. No row is wider than 65,535.
pub fn read_row(reading: Reading, src: &[u8], at: usize, store: &mut [u8], width: usize) -> Taken
    requires { (4 * width ≤ length store.old) × (width ≤ 65535) }
    ensures { (result, store.new) ≡ row_of reading src.now at store.old width }
{
    if kind::is_flat_width(width) {
        return flat_read::read_flat(reading, src, at, store, 0, width);
    }
    let k = kind::kind_at(src, at);
    start::put_start(reading, src, at, store, k);
    match k {
        Kind::Missing => Err(Reason::BytesEnd),
        Kind::Flat => flat_read::read_flat(reading, src, at, store, 0, width),
        Kind::Pixel { next } => flat_read::read_flat(reading, src, next, store, 4, width - 1),
        Kind::Channels { next } => read_marked(reading, src, at, next, store, width),
    }
}
