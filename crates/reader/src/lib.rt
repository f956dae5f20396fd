// The whole reader.
#![tactic(auto)]

mod samples;

ghost use Rattle.std.specs.Prelude.{◌≡◌, ◌*◌, ◌≤◌, length};
ghost use Rattle.steps.specs.Answer.{paper_of};
ghost use Rattle.rows_read.specs.Row.{row_of};
ghost use Rattle.places.specs.Inner.{line_at};
ghost use Rattle.reader.specs.Frame.{stored_of, step_of, rows_of};
ghost use Rattle.reader.specs.Read.{output_size, pixel_by, framed, ReadPromise};
ghost use Rattle.reader.specs.Inner.{Room, frame_answer};

use header::Head;
use places::{Layout, Line};
use steps::refusal::{Reason, Refusal};
use steps::{Reading, Taken};

// One stored row from a place of the input on, by way of the row store; its pixels lie in the frame along a line.
pub fn step(
    reading: Reading,
    bytes: &[u8],
    at: usize,
    long: usize,
    line: Line,
    out: &mut [f32],
    store: &mut [u8],
) -> Taken
    requires { (4 * long ≤ length store.old) × (long ≤ 65535) × Room line long (length out.old) }
    ensures { (result, out.new, store.new) ≡ step_of (row_of reading) (pixel_by reading) long (line_at line) bytes.now at out.old store.old }
{
    let next = rows_read::read_row(reading, bytes, at, store, long)?;
    samples::put_row(reading, store, out, line, long);
    Ok(next)
}

// How the picture of a header is stored.
// No `From`: neither `header` nor `places` knows the other's type.
fn layout_of(head: Head) -> Layout
    ensures { result ≡ record { orientation = head.orientation; width = head.width; height = head.height } }
{
    Layout {
        orientation: head.orientation,
        width: head.width,
        height: head.height,
    }
}

// The stored rows from head.taken on, each to its places in the output.
fn read_rows(
    reading: Reading,
    bytes: &[u8],
    head: Head,
    out: &mut [f32],
    store: &mut [u8],
) -> Result<Head, Refusal>
    requires { (4 * (stored_of head).long ≤ length store.old) × (head.height * (3 * head.width) ≤ length out.old) × (head.width ≤ 65535) × (head.height ≤ 65535) }
    ensures { (paper_of result, out.new, store.new) ≡ framed head (rows_of (row_of reading) (pixel_by reading) bytes.now (stored_of head) head.taken out.old store.old) }
{
    let layout = layout_of(head);
    let long = layout.long();
    let count = layout.count();
    let mut p = head.taken;
    for k in 0..count {
        let line = layout.line(k);
        match step(reading, bytes, p, long, line, out, store) {
            Ok(next) => p = next,
            Err(reason) => return Err(Refusal { reason, place: k }),
        }
    }
    Ok(head.taking(p))
}

// The checks 6 to 8, and then the rows.
fn read_frame(
    reading: Reading,
    bytes: &[u8],
    head: Head,
    out: &mut [f32],
    store: &mut [u8],
) -> Result<Head, Refusal>
    requires { (head.width ≤ 65535) × (head.height ≤ 65535) }
    ensures { (paper_of result, out.new, store.new) ≡ frame_answer (row_of reading) (pixel_by reading) bytes.now head out.old store.old }
{
    if out.len() < head.height * (3 * head.width) {
        return Err(Reason::ShortOutput.into());
    }
    if head.width == 0 {
        return Err(Reason::NoWidth.into());
    }
    let long = layout_of(head).long();
    if store.len() < 4 * long {
        return Err(Reason::ShortStore.into());
    }
    store[..4 * long].fill(0);
    read_rows(reading, bytes, head, out, store)
}

// A file's pixels into the output, by way of the row store.
pub fn read(
    reading: Reading,
    bytes: &[u8],
    widest: usize,
    highest: usize,
    out: &mut [f32],
    store: &mut [u8],
) -> Result<Head, Refusal>
    ensures { ReadPromise reading bytes.now widest highest out.old store.old result out.new store.new }
{
    let head = header::read(reading, bytes, widest, highest)?;
    read_frame(reading, bytes, head, out, store)
}

// How many samples a frame has.
pub fn output_buffer_size(width: usize, height: usize) -> Option<usize>
    ensures { result ≡ output_size width height }
{
    width.checked_mul(height)?.checked_mul(3)
}
