// The samples of a stored row.
ghost use Rattle.std.specs.Prelude.{◌≡◌, [], ◌+◌, ◌*◌, ◌≤◌, length};
ghost use Rattle.steps.specs.Place.{spread};
ghost use Rattle.places.specs.Inner.{ahead, line_at};
ghost use Rattle.reader.specs.Samples.{three, placed};
ghost use Rattle.reader.specs.Read.{pixel_by};
ghost use Rattle.reader.specs.Inner.{samples_from, Room, is_along};

use pixel::Pixel;
use places::Line;
use steps::Reading;

// The store and a count of pixels, and no part of it: `samples_from` and `placed` of the specs speak of pixels of the row store.

// A pixel's three samples from a place on.
#[tactic(auto, using(steps::proofs::Laws::Place::put_three))]
fn put_pixel(out: &mut [f32], o: usize, p: Pixel)
    requires { o + 3 ≤ length out.old }
    ensures { out.new ≡ spread 1 out.old o (three p []) }
{
    out[o] = p.r;
    out[o + 1] = p.g;
    out[o + 2] = p.b;
}

// The samples of the row store's first n pixels, to the output from a place on.
// `put_line` does it too, but asks at each pixel which way the line goes; nearly every row is one of these.
fn put_samples(reading: Reading, store: &[u8], out: &mut [f32], from: usize, n: usize)
    requires { (4 * n ≤ length store.now) × (from + 3 * n ≤ length out.old) }
    ensures { out.new ≡ spread 1 out.old from (samples_from (pixel_by reading) store.now 0 n) }
{
    for i in 0..n {
        let p = pixel::from_bytes(reading, pixel::rgbe_at(store, 4 * i));
        put_pixel(out, from + 3 * i, p);
    }
}

// The place after one along a line, of three samples to a pixel; 0 where it would lie before the start.
#[tactic(auto, using(crate::proofs::Laws::Samples::onward_back, crate::proofs::Laws::Samples::onward_on))]
fn onward(back: bool, o: usize, stride: usize) -> usize
    requires { (o ≤ 12884705280) × (stride ≤ 196605) }
    ensures { result ≡ ahead back o stride 1 }
{
    if back {
        o.saturating_sub(stride)
    } else {
        o + stride
    }
}

// The samples of the row store's first n pixels, one by one to the output along a line.
fn put_line(reading: Reading, store: &[u8], out: &mut [f32], line: Line, n: usize)
    requires { (4 * n ≤ length store.now) × Room line n (length out.old) }
    ensures { out.new ≡ placed (pixel_by reading) (line_at line) store.now 0 n out.old }
{
    let stride = 3 * line.stride;
    let mut o = 3 * line.first;
    for i in 0..n {
        let p = pixel::from_bytes(reading, pixel::rgbe_at(store, 4 * i));
        put_pixel(out, o, p);
        o = onward(line.back, o, stride);
    }
}

// Whether there are pixels, and the line has them one after another, as they are stored.
#[tactic(auto, unfolding(crate::specs::Inner::is_along))]
fn is_along(line: Line, n: usize) -> bool
    ensures { result ≡ is_along line n }
{
    !line.back && line.stride == 1 && 0 < n
}

// The samples of the row store's first n pixels, to the output along a line: in one piece where it lies as the row is stored.
pub(crate) fn put_row(reading: Reading, store: &[u8], out: &mut [f32], line: Line, n: usize)
    requires { (4 * n ≤ length store.now) × Room line n (length out.old) }
    ensures { out.new ≡ placed (pixel_by reading) (line_at line) store.now 0 n out.old }
{
    if is_along(line, n) {
        put_samples(reading, store, out, 3 * line.first, n);
        return;
    }
    put_line(reading, store, out, line, n);
}
