// The four channels of a coded row.
#![tactic(auto)]

mod channel;
mod crate_part;
mod document;
mod fourth;
mod span;

ghost use Rattle.std.specs.Prelude.{◌≡◌, ◌*◌, ◌≤◌, ◌<◌, length};
ghost use Rattle.channels_read.specs.Channel.{count_rule, channel_of};
ghost use Rattle.channels_read.specs.Channels.{channels_of};

use crate_part::CrateCounts;
use document::DocumentCounts;
use steps::{Reading, Taken};

// The store, a channel of the four and a width go in three parameters and no struct: the definitions speak of the whole store, and each call is for another channel.

// One channel.
fn read_channel(
    reading: Reading,
    src: &[u8],
    at: usize,
    store: &mut [u8],
    channel: usize,
    width: usize,
) -> Taken
    requires { (channel < 4) × (4 * width ≤ length store.old) }
    ensures { (result, store.new) ≡ channel_of (count_rule reading) src.now at store.old channel width }
{
    // By the reading that a caller gives (DECISIONS 74).
    match reading {
        Reading::Crate => channel::read::<CrateCounts>(src, at, store, channel, width),
        Reading::Document => channel::read::<DocumentCounts>(src, at, store, channel, width),
    }
}

// The four channels, one after another.
pub fn read_channels(
    reading: Reading,
    src: &[u8],
    at: usize,
    store: &mut [u8],
    width: usize,
) -> Taken
    requires { 4 * width ≤ length store.old }
    ensures { (result, store.new) ≡ channels_of (count_rule reading) src.now at store.old width }
{
    let mut p = at;
    for channel in 0..4 {
        p = read_channel(reading, src, p, store, channel, width)?;
    }
    Ok(p)
}
