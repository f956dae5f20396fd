// Bytes stored to every fourth place of the row store.
ghost use Rattle.std.specs.Prelude.{◌≡◌, ◌+◌, ◌*◌, ◌-◌, ◌≤◌, length, replicate};
ghost use Rattle.steps.specs.Place.{spread, bytes_from};

// The byte v, n times.
#[tactic(auto, using(steps::proofs::Laws::Place::run_start, steps::proofs::Laws::Place::run_next))]
pub(crate) fn put_run(store: &mut [u8], from: usize, n: usize, v: u8)
    requires { from + 4 * n ≤ length store.old + 3 }
    ensures { store.new ≡ spread 4 store.old from (replicate n v) }
{
    for k in 0..n {
        store[from + 4 * k] = v;
    }
}

// The n bytes of src from p on, which are all there.
#[tactic(auto, using(steps::proofs::Laws::Place::literal_start, steps::proofs::Laws::Place::literal_next))]
fn put_known(src: &[u8], p: usize, store: &mut [u8], from: usize, n: usize)
    requires { (n ≤ length src.now - p) × (from + 4 * n ≤ length store.old + 3) }
    ensures { store.new ≡ spread 4 store.old from (bytes_from src.now p n) }
{
    for k in 0..n {
        store[from + 4 * k] = src[p + k];
    }
}

// The n bytes of src from p on, 0 for a missing one.
#[tactic(auto, using(crate::proofs::Laws::Fourth::literals_put))]
pub(crate) fn put_literals(src: &[u8], p: usize, store: &mut [u8], from: usize, n: usize)
    requires { (p ≤ length src.now) × (from + 4 * n ≤ length store.old + 3) }
    ensures { store.new ≡ spread 4 store.old from (bytes_from src.now p n) }
{
    let known = n.min(src.len() - p);
    put_known(src, p, store, from, known);
    put_run(store, from + 4 * known, n - known, 0);
}
