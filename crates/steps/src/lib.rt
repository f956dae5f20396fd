// The small functions that every crate above uses.
#![tactic(auto)]

pub mod refusal;

ghost use Rattle.std.specs.Prelude.{◌≡◌, ◌+◌, ◌-◌, ◌≤◌, length};
ghost use Rattle.steps.specs.Place.{spread, bytes_from};
ghost use Rattle.steps.specs.Width.{is_coded};

use refusal::Reason;

// How a file is read: as the crate zune-hdr reads it, or by the Radiance document.
#[derive(Clone, Copy, Debug, PartialEq, Eq)]
pub enum Reading {
    Crate,
    Document,
}

// What reading a row, or a part of one, answers: the next place in the input, or why the row is at fault.
pub type Taken = Result<usize, Reason>;

// Whether rows of w pixels may be coded.
#[tactic(auto, unfolding(crate::specs::Width::is_coded))]
pub fn is_coded(w: usize) -> bool
    ensures { result ≡ is_coded w }
{
    8 <= w && w <= 32767
}

// The n bytes of src from p on, to the places from `from` on.
// A loop and no `copy_from_slice`: where n is 0, p may lie behind the end, and no part of src starts there.
#[tactic(auto, using(crate::proofs::Laws::Place::literal_start, crate::proofs::Laws::Place::literal_next))]
pub fn put_bytes(src: &[u8], p: usize, store: &mut [u8], from: usize, n: usize)
    requires { (n ≤ length src.now - p) × (from + n ≤ length store.old) }
    ensures { store.new ≡ spread 1 store.old from (bytes_from src.now p n) }
{
    for k in 0..n {
        store[from + k] = src[p + k];
    }
}
