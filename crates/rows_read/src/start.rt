// What the start of a row puts into the store.
// That the kind is the row's own stands in each contract: a type that says so would have to hold the input too, for these three functions.
ghost use Rattle.std.specs.Prelude.{◌≡◌, ◌≤◌, length};
ghost use Rattle.rows_read.specs.Row.{kind_of, early, crate_start, document_start, start_of};

use crate::kind::Kind;
use steps::Reading;

// Of four bytes that start with 2 the second and third, where they are there.
fn put_early(src: &[u8], at: usize, store: &mut [u8])
    requires { 4 ≤ length store.old }
    ensures { store.new ≡ early src.now at store.old }
{
    if src.len() <= at {
        return;
    }
    if src[at] != 2 {
        return;
    }
    let there = 2usize.min(src.len() - (at + 1));
    steps::put_bytes(src, at + 1, store, 1, there);
}

// By the crate reading: the same, and the first and fourth where the row proves flat.
fn put_crate(src: &[u8], at: usize, store: &mut [u8], kind: Kind)
    requires { (4 ≤ length store.old) × (kind ≡ kind_of src.now at) }
    ensures { store.new ≡ crate_start src.now at store.old }
{
    put_early(src, at, store);
    match kind {
        Kind::Pixel { next } => {
            store[0] = src[next - 4];
            store[3] = src[next - 1];
        }
        Kind::Missing => {}
        Kind::Flat => {}
        Kind::Channels { .. } => {}
    }
}

// By the document reading: all four, where they are pixel 0.
fn put_document(src: &[u8], at: usize, store: &mut [u8], kind: Kind)
    requires { (4 ≤ length store.old) × (kind ≡ kind_of src.now at) }
    ensures { store.new ≡ document_start src.now at store.old }
{
    match kind {
        Kind::Pixel { next } => {
            steps::put_bytes(src, next - 4, store, 0, 4);
        }
        Kind::Missing => {}
        Kind::Flat => {}
        Kind::Channels { .. } => {}
    }
}

// By either reading.
pub(crate) fn put_start(reading: Reading, src: &[u8], at: usize, store: &mut [u8], kind: Kind)
    requires { (4 ≤ length store.old) × (kind ≡ kind_of src.now at) }
    ensures { store.new ≡ start_of reading src.now at store.old }
{
    // By the reading that a caller gives (DECISIONS 74).
    match reading {
        Reading::Crate => put_crate(src, at, store, kind),
        Reading::Document => put_document(src, at, store, kind),
    }
}
