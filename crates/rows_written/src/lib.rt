// The rows of a Radiance picture as they are written. A pixel is four bytes of px, and a channel one byte in four.
#![tactic(auto)]

mod channel;

ghost use Rattle.std.specs.Prelude.{◌≡◌, ◌+◌, ◌*◌, ◌<◌, ◌≤◌, length};
ghost use Rattle.steps.specs.Place.{spread};
ghost use Rattle.rows_written.specs.Row.{mark, coded_row, written_row};
ghost use Rattle.rows_written.specs.Inner.{Stored};

// The pixels, a place and a width go in three parameters and no struct: the definitions speak of places in all of them, and each call goes on at another.

// How many bytes a coded row of w pixels, the first at `at`, is written in.
fn coded_length(px: &[u8], at: usize, w: usize) -> usize
    requires { (at + 4 * w ≤ length px.now) × (0 < w) }
    ensures { result ≡ length (coded_row px.now at w) }
{
    let a = channel::channel_length(px, at, w);
    let b = channel::channel_length(px, at + 1, w);
    let c = channel::channel_length(px, at + 2, w);
    let d = channel::channel_length(px, at + 3, w);
    4 + a + b + c + d
}

// How many bytes a row of w pixels, the first at `at`, is written in.
pub fn row_length(px: &[u8], at: usize, w: usize) -> usize
    requires { at + 4 * w ≤ length px.now }
    ensures { result ≡ length (written_row px.now at w) }
{
    if steps::is_coded(w) {
        coded_length(px, at, w)
    } else {
        4 * w
    }
}

// Stores the mark of a row of w pixels.
fn write_mark(w: usize, out: &mut [u8], to: usize)
    requires { (w < 65536) × (to + 4 ≤ length out.old) }
    ensures { out.new ≡ spread 1 out.old to (mark w) }
{
    let [high, low] = (w as u16).to_be_bytes();
    steps::put_bytes(&[2, 2, high, low], 0, out, to, 4);
}

// Stores a coded row of w pixels, the first at `at`, and returns the place after it.
fn write_coded(px: &[u8], at: usize, w: usize, out: &mut [u8], to: usize) -> usize
    requires { (at + 4 * w ≤ length px.now) × (0 < w) × (w < 65536) × (to + length (coded_row px.now at w) ≤ length out.old) }
    ensures { Stored out.old to (coded_row px.now at w) result out.new }
{
    write_mark(w, out, to);
    let a = channel::write_channel(px, at, w, out, to + 4);
    let b = channel::write_channel(px, at + 1, w, out, a);
    let c = channel::write_channel(px, at + 2, w, out, b);
    channel::write_channel(px, at + 3, w, out, c)
}

// Stores a row of w pixels, the first at `at`, and returns the place after it.
pub fn write_row(px: &[u8], at: usize, w: usize, out: &mut [u8], to: usize) -> usize
    requires { (at + 4 * w ≤ length px.now) × (to + length (written_row px.now at w) ≤ length out.old) }
    ensures { Stored out.old to (written_row px.now at w) result out.new }
{
    if steps::is_coded(w) {
        write_coded(px, at, w, out, to)
    } else {
        steps::put_bytes(px, at, out, to, 4 * w);
        to + 4 * w
    }
}
