// A flat part by the crate reading.
ghost use Rattle.std.specs.Prelude.{◌≡◌, ℕ, ◌+◌, ◌*◌, ◌-◌, ◌≤◌, ◌<◌, length};
ghost use Rattle.flat_read.specs.Flat.{crate_flat};

use crate::part::{Ahead, Pixels};
use steps::refusal::Reason;

// Each byte is stored as it is read.
pub(crate) struct CratePixels;

impl Pixels for CratePixels {
    ghost rule = { crate_flat };

    #[tactic(auto, using(crate::proofs::Laws::Pixels::crate_missing))]
    fn missing(src: &[u8], p: usize, store: &mut [u8], place: usize) {
        steps::put_bytes(src, p, store, place, src.len().saturating_sub(p));
    }

    #[tactic(auto, using(crate::proofs::Laws::Pixels::crate_ones))]
    fn ones(src: &[u8], p: usize, store: &mut [u8], ahead: Ahead) -> Result<Ahead, Reason> {
        steps::put_bytes(src, p, store, ahead.place, 4);
        Err(Reason::OldRun)
    }
}
