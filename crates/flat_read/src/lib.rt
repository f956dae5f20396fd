// A flat part of a row.
#![tactic(auto)]

mod crate_part;
mod document;
mod part;

ghost use Rattle.std.specs.Prelude.{◌≡◌, ◌+◌, ◌*◌, ◌≤◌, length};
ghost use Rattle.flat_read.specs.Flat.{flat_rule, flat_of};

use crate_part::CratePixels;
use document::DocumentPixels;
use steps::{Reading, Taken};

// The flat part that starts at byte start of the store. No row is wider than 65,535.
#[tactic(auto, using(crate::proofs::Laws::Document::by_crate, crate::proofs::Laws::Document::by_document))]
pub fn read_flat(
    reading: Reading,
    src: &[u8],
    at: usize,
    store: &mut [u8],
    start: usize,
    wanted: usize,
) -> Taken
    requires { (start + 4 * wanted ≤ length store.old) × (wanted ≤ 65535) }
    ensures { (result, store.new) ≡ flat_of (flat_rule reading) src.now at store.old start wanted }
{
    // By the reading that a caller gives (DECISIONS 74).
    match reading {
        Reading::Crate => part::read::<CratePixels>(src, at, store, start, wanted),
        Reading::Document => part::read::<DocumentPixels>(src, at, store, start, wanted),
    }
}
