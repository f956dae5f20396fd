// The header of a Radiance picture: read, and as it is written.
#![tactic(auto)]

mod written;

ghost use Rattle.std.specs.Prelude.{◌≡◌, ◌≤◌, length};
ghost use Rattle.steps.specs.Loop.{pick};
ghost use Rattle.words.specs.Fields.{fields_at};
ghost use Rattle.header.specs.Head.{takes, lies_by, taking, HeaderPromise};
ghost use Rattle.header.specs.Inner.{answer_of, sizes_answer, fields_answer};

use stated::{Colour, Exposure, Said};
use steps::Reading;
use steps::refusal::{Reason, Refusal};
use words::axes::Orientation;
use words::{axes, fields, lines, sizes};
pub use written::{length, put_digits, write};

// What a header says, how the rows under it lie, and how many bytes it takes.
// The limits of its sizes are no ghost field: `head_in` of the specs, whose meaning stays, makes a Head of any bytes, also of refused ones.
#[derive(Clone, Copy, Debug, PartialEq)]
pub struct Head {
    pub width: usize,
    pub height: usize,
    pub taken: usize,
    pub colour: Option<Colour>,
    pub exposure: Exposure,
    pub orientation: Orientation,
}

impl Head {
    // The same header, with another count of bytes taken.
    pub fn taking(mut self, taken: usize) -> Head
        ensures { result ≡ taking self taken }
    {
        self.taken = taken;
        self
    }
}

// The checks 3 to 5 of the fields of height and width: both sizes, the width first.
// The two limits come as the calls from C have them; a struct would only be taken apart again here.
fn read_sizes(
    height: &[u8],
    width: &[u8],
    widest: usize,
    highest: usize,
) -> Result<(usize, usize), Reason>
    ensures { answer_of result ≡ sizes_answer height.now width.now widest highest }
{
    let height = sizes::size_of(height).ok_or(Reason::Size)?;
    let width = sizes::size_of(width).ok_or(Reason::Size)?;
    if highest.min(65535) < height {
        return Err(Reason::TooHigh);
    }
    if widest.min(65535) < width {
        return Err(Reason::TooWide);
    }
    Ok((width, height))
}

// Whether a reading takes these axes: the document any of the eight, the crate -Y +X and +X -Y alone.
fn takes(reading: Reading, o: Orientation) -> bool
    ensures { result ≡ takes reading o }
{
    // By the reading that a caller gives (DECISIONS 74).
    match reading {
        Reading::Crate => !(o.upward || o.leftward),
        Reading::Document => true,
    }
}

// How the rows lie by a reading: by the crate as those of -Y +X, always.
fn lies(reading: Reading, o: Orientation) -> Orientation
    ensures { result ≡ lies_by reading o }
{
    // By the reading that a caller gives (DECISIONS 74).
    match reading {
        Reading::Crate => Orientation {
            columns: false,
            upward: false,
            leftward: false,
        },
        Reading::Document => o,
    }
}

// The fields of the height and the width: the size behind Y, and that behind X.
fn by_axis<'a>(o: Orientation, second: &'a [u8], fourth: &'a [u8]) -> (&'a [u8], &'a [u8])
    ensures height { result.0.now ≡ pick o.columns fourth.now second.now }
    ensures width { result.1.now ≡ pick o.columns second.now fourth.now }
{
    if o.columns {
        (fourth, second)
    } else {
        (second, fourth)
    }
}

// The four fields from `at` on, and their checks.
fn read_fields(
    reading: Reading,
    said: Said,
    bytes: &[u8],
    at: usize,
    widest: usize,
    highest: usize,
) -> Result<Head, Reason>
    requires { at ≤ length bytes.now }
    ensures { answer_of result ≡ fields_answer reading said (fields_at bytes.now at) widest highest }
{
    let a = lines::past(bytes, at, b' ');
    let b = lines::past(bytes, a, b' ');
    let c = lines::past(bytes, b, b' ');
    let taken = lines::past(bytes, c, b'\n');
    let second = fields::trim(&bytes[a..b]);
    let fourth = fields::trim(&bytes[c..taken]);
    let named = axes::axes_of(fields::trim(&bytes[at..a]), fields::trim(&bytes[b..c]));
    let o = named.ok_or(Reason::Axes)?;
    if !takes(reading, o) {
        return Err(Reason::Axes);
    }
    let (height, width) = by_axis(o, second, fourth);
    let (width, height) = read_sizes(height, width, widest, highest)?;
    Ok(Head {
        width,
        height,
        taken,
        colour: said.colour,
        exposure: said.exposure,
        orientation: lies(reading, o),
    })
}

// The header at the start of the bytes.
pub fn read(reading: Reading, bytes: &[u8], widest: usize, highest: usize) -> Result<Head, Refusal>
    ensures { HeaderPromise reading bytes.now widest highest result }
{
    let at = lines::past(bytes, 0, b'\n');
    if !lines::is_first(&bytes[..at]) {
        return Err(Refusal::from(Reason::FirstLine));
    }
    let said = stated::read(reading, bytes, at)?;
    let start = lines::lines_end(bytes, at);
    let head = read_fields(reading, said, bytes, start, widest, highest)?;
    Ok(head)
}
