// A file of which only a part is at hand: its header, its rows, and the part moved on.
#![tactic(auto)]

mod head;

ghost use Rattle.std.specs.Prelude.{◌≡◌, ◌-◌, ◌*◌, ◌≤◌, ◌&&◌, ◌++◌, length, drop, eqb, leb};
ghost use Rattle.steps.specs.Refusal.{reason_number};
ghost use Rattle.window.specs.Row.{row_part, RowPromise, RowWithin};
ghost use Rattle.words.specs.Lines.{between};

pub use head::read_header;
use steps::refusal::Reason;
use steps::{Reading, Taken};

// Whether what ends at a place may need more than a part of that length. `more` says whether the file goes on after the part.
// They stay two parameters: of a struct of both each call would build one, for a part of another length.
fn reaches(more: bool, length: usize, end: usize) -> bool
    ensures { result ≡ more && leb length end }
{
    more && length <= end
}

// Whether a row at fault for this reason may be whole in the file: bytes are missing in the part, and the file goes on.
fn may_go_on(more: bool, reason: Reason) -> bool
    ensures { result ≡ more && eqb (reason_number reason) 9 }
{
    more && reason == Reason::BytesEnd
}

// What a part says of a row that was read so; none where the row may need more than the part.
#[tactic(auto, unfolding(crate::specs::Row::row_part))]
fn row_part(more: bool, length: usize, taken: Taken) -> Option<Taken>
    ensures { result ≡ row_part more length taken }
{
    let long = match taken {
        Ok(next) => reaches(more, length, next),
        Err(reason) => may_go_on(more, reason),
    };
    if long { None } else { Some(taken) }
}

// The row from a place of the part on, by a reading; none where it may need more than the part.
pub fn read_row(
    reading: Reading,
    part: &[u8],
    more: bool,
    at: usize,
    store: &mut [u8],
    width: usize,
) -> Option<Taken>
    requires { (4 * width ≤ length store.old) × (width ≤ 65535) }
    ensures row_promise { RowPromise reading part.now more at store.old width result store.new }
    ensures row_within { at ≤ length part.now → RowWithin (length part.now) result }
{
    let taken = rows_read::read_row(reading, part, at, store, width);
    row_part(more, part.len(), taken)
}

// Moves the bytes from `at` to `end` to the front; those behind them stay as they were.
pub fn slide(bytes: &mut [u8], at: usize, end: usize)
    requires { (at ≤ end) × (end ≤ length bytes.old) }
    ensures { bytes.new ≡ between bytes.old at end ++ drop (end - at) bytes.old }
{
    bytes.copy_within(at..end, 0);
}
