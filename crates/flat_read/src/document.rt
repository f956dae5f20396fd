// A flat part by the document reading.
ghost use Rattle.std.specs.Prelude.{[], ◌∷◌, ◌≡◌, ℕ, ◌+◌, ◌*◌, ◌-◌, ◌^◌, ◌≤◌, ◌<◌, min, length};
ghost use Rattle.steps.specs.Place.{spread};
ghost use Rattle.flat_read.specs.Flat.{copies_to, document_flat};

use crate::part::{Ahead, Pixels};
use steps::refusal::Reason;

// n times 256^k, and 65,536 where that is more.
#[tactic(auto, using(crate::proofs::Laws::Document::times_none, crate::proofs::Laws::Document::times_once, crate::proofs::Laws::Document::times_256, crate::proofs::Laws::Document::times_most))]
fn times(n: u8, k: usize) -> usize
    ensures { result ≡ min (n * 256 ^ k) 65536 }
{
    match (n, k) {
        (0, _) => 0,
        (_, 0) => usize::from(n),
        (_, 1) => usize::from(n) * 256,
        _ => 65536,
    }
}

// Four bytes, from a place on.
#[tactic(auto, using(crate::proofs::Laws::Document::put_four))]
fn put_four(store: &mut [u8], i: usize, r: u8, g: u8, b: u8, e: u8)
    requires { i + 4 ≤ length store.old }
    ensures { store.new ≡ spread 1 store.old i (r ∷ g ∷ b ∷ e ∷ []) }
{
    store[i] = r;
    store[i + 1] = g;
    store[i + 2] = b;
    store[i + 3] = e;
}

// n copies of the pixel before a place, from that place on.
#[tactic(auto, using(steps::proofs::Laws::Place::run_start, crate::proofs::Laws::Document::copy_next))]
fn put_copies(store: &mut [u8], place: usize, n: usize)
    requires { (4 ≤ place) × (place + 4 * n ≤ length store.old) }
    ensures { store.new ≡ copies_to store.old place n }
{
    let r = store[place - 4];
    let g = store[place - 3];
    let b = store[place - 2];
    let e = store[place - 1];
    for k in 0..n {
        put_four(store, place + 4 * k, r, g, b, e);
    }
}

// Whole pixels alone are stored, and a pixel 1, 1, 1, n repeats the one before it.
pub(crate) struct DocumentPixels;

impl Pixels for DocumentPixels {
    ghost rule = { document_flat };

    #[tactic(auto, unfolding(crate::specs::Flat::document_flat))]
    fn missing(_src: &[u8], _p: usize, _store: &mut [u8], _place: usize) {}

    #[tactic(auto, using(crate::proofs::Laws::Pixels::ones_first, crate::proofs::Laws::Pixels::ones_past, crate::proofs::Laws::Pixels::ones_copies))]
    fn ones(src: &[u8], p: usize, store: &mut [u8], ahead: Ahead) -> Result<Ahead, Reason> {
        if ahead.place < 4 {
            return Err(Reason::BrokenRow);
        }
        let n = times(src[p + 3], ahead.repeats);
        if ahead.wanted < n {
            return Err(Reason::BrokenRow);
        }
        put_copies(store, ahead.place, n);
        Ok(Ahead {
            place: ahead.place + 4 * n,
            wanted: ahead.wanted - n,
            repeats: ahead.repeats + 1,
        })
    }
}
