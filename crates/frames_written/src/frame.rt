// A frame, whatever its pixels are lent as: its length and its bytes. Width and height stay two parameters, as in the calls for C.
ghost use Rattle.std.specs.Prelude.{◌≡◌, ℕ, ◌+◌, ◌*◌, ◌<◌, ◌≤◌, List, length, leb};
ghost use Rattle.steps.specs.Place.{spread};
ghost use Rattle.rows_written.specs.Row.{worst_row, written_row};
ghost use Rattle.frames_written.specs.Frame.{rows_by, frame_by, worst_of};
ghost use Rattle.frames_written.specs.Inner.{RowOf, Kept};

// The pixels of a frame, which is written row by row.
pub trait Rows {
    // h rows of w pixels are there, and can be written
    ghost CanWrite: { Self → ℕ → ℕ → Type 0 };

    // the pixels of row k of w pixels, four bytes to each
    ghost line: { Self → ℕ → ℕ → List ℕ };

    // what the caller lent, which stays as it is
    ghost Lent: { Type 0 };

    ghost lent: { Self → Lent };

    // How many bytes row k is written in.
    fn row_length(&mut self, width: usize, k: usize) -> usize
        requires { RowOf (CanWrite self.old width) k }
        ensures value { result ≡ length (written_row (line self.old width k) 0 width) }
        ensures kept { Kept CanWrite line lent self.old self.new };

    // Stores row k from `to` on, and answers the place after it.
    fn write_row(&mut self, width: usize, k: usize, out: &mut [u8], to: usize) -> usize
        requires row { RowOf (CanWrite self.old width) k }
        requires room { to + length (written_row (line self.old width k) 0 width) ≤ length out.old }
        ensures next { result ≡ to + length (written_row (line self.old width k) 0 width) }
        ensures stored { out.new ≡ spread 1 out.old to (written_row (line self.old width k) 0 width) }
        ensures kept { Kept CanWrite line lent self.old self.new };
}

// The most that a row takes.
fn worst_row(width: usize) -> usize
    requires { width ≤ 65535 }
    ensures { result ≡ worst_row width }
{
    if steps::is_coded(width) {
        4 + 4 * (width + width.div_ceil(128))
    } else {
        4 * width
    }
}

// The most that a frame takes.
pub fn worst_length(width: usize, height: usize) -> usize
    requires { (width ≤ 65535) × (height ≤ 65535) }
    ensures { result ≡ worst_of width height }
{
    header::length(width, height) + height * worst_row(width)
}

// How many bytes the rows are written in.
fn rows_length<R: Rows>(rows: &mut R, width: usize, height: usize) -> usize
    requires limits { (width ≤ 65535) × (height ≤ 65535) }
    requires can { R.CanWrite rows.old width height }
    ensures value { result ≡ length (rows_by (R.line rows.old width) width height) }
    ensures kept { Kept R.CanWrite R.line R.lent rows.old rows.new }
{
    let mut n = 0;
    for k in 0..height {
        n += rows.row_length(width, k);
    }
    n
}

// How many bytes the frame is written in.
pub fn frame_length<R: Rows>(rows: &mut R, width: usize, height: usize) -> usize
    requires limits { (width ≤ 65535) × (height ≤ 65535) }
    requires can { R.CanWrite rows.old width height }
    ensures value { result ≡ length (frame_by (R.line rows.old width) width height) }
    ensures kept { Kept R.CanWrite R.line R.lent rows.old rows.new }
{
    header::length(width, height) + rows_length(rows, width, height)
}

// Whether the frame is written in at most `room` bytes. Where they hold the worst length, its own is not asked for.
pub fn fits<R: Rows>(rows: &mut R, width: usize, height: usize, room: usize) -> bool
    requires limits { (width ≤ 65535) × (height ≤ 65535) }
    requires can { R.CanWrite rows.old width height }
    ensures value { result ≡ leb (length (frame_by (R.line rows.old width) width height)) room }
    ensures kept { Kept R.CanWrite R.line R.lent rows.old rows.new }
{
    worst_length(width, height) <= room || frame_length(rows, width, height) <= room
}

// Stores the rows from `to` on, and answers the place after them.
fn write_rows<R: Rows>(
    rows: &mut R,
    width: usize,
    height: usize,
    out: &mut [u8],
    to: usize,
) -> usize
    requires can { R.CanWrite rows.old width height }
    requires room { to + length (rows_by (R.line rows.old width) width height) ≤ length out.old }
    ensures next { result ≡ to + length (rows_by (R.line rows.old width) width height) }
    ensures stored { out.new ≡ spread 1 out.old to (rows_by (R.line rows.old width) width height) }
    ensures kept { Kept R.CanWrite R.line R.lent rows.old rows.new }
{
    let mut o = to;
    for k in 0..height {
        o = rows.write_row(width, k, out, o);
    }
    o
}

// Stores the frame, and answers its length.
pub fn write_frame<R: Rows>(rows: &mut R, width: usize, height: usize, out: &mut [u8]) -> usize
    requires can { R.CanWrite rows.old width height }
    requires room { length (frame_by (R.line rows.old width) width height) ≤ length out.old }
    ensures value { result ≡ length (frame_by (R.line rows.old width) width height) }
    ensures stored { out.new ≡ spread 1 out.old 0 (frame_by (R.line rows.old width) width height) }
    ensures kept { Kept R.CanWrite R.line R.lent rows.old rows.new }
{
    let at = header::write(width, height, out);
    write_rows(rows, width, height, out, at)
}
