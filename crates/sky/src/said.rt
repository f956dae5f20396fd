// What a header states, in words: how the rows lie, the kind of colour and the exposure.
use crate::axes::{Axes, Order};
use crate::lit;
use crate::lit::Decimal;
use header::Head;
use stated::{Colour, Exposure};
use std::fmt::Display;
use steps::Reading;

// The kind of colour, if it is stated.
// The words of this kind and of the axes are those of this program; `replay` has its own, which its lines lay down.
pub(crate) fn colour(head: &Head) -> Option<&'static str> {
    match head.colour? {
        Colour::Rgbe => Some("rgbe"),
        Colour::Xyze => Some("xyze"),
    }
}

// The exposure, if it is stated.
pub(crate) fn exposure(head: &Head) -> Option<Decimal> {
    match head.exposure {
        Exposure::Stated(x) => Some(lit::float(x)),
        Exposure::NotStated => None,
    }
}

// What is stated, or that it is not; lines of that name are not read with --crate.
fn say_stated<D: Display + Drop>(
    rt: &impl Print,
    reading: Reading,
    stated: Option<D>,
    lines: &str,
) {
    let _ = match (stated, reading) {
        (Some(x), _) => println!(rt; "{x}"),
        (None, Reading::Document) => println!(rt; "not stated"),
        (None, Reading::Crate) => {
            println!(rt; "not stated: {lines} lines are passed over with --crate")
        }
    };
}

// In three lines.
// Here and below by the reading that the command line gives (DECISIONS 74).
pub(crate) fn say_lines(rt: &impl Print, reading: Reading, head: &Head) {
    let _ = match reading {
        Reading::Document => println!(rt; "  orientation      {}", Order(head.orientation)),
        Reading::Crate => println!(rt;
            "  orientation      not told with --crate: rows are read from the top, pixels from the left"
        ),
    };
    let _ = print!(rt; "  colour           ");
    say_stated(rt, reading, colour(head), "FORMAT");
    let _ = print!(rt; "  exposure         ");
    say_stated(rt, reading, exposure(head), "EXPOSURE");
}

// How the rows lie, if it is told.
pub(crate) fn axes(reading: Reading, head: &Head) -> Option<Axes> {
    match reading {
        Reading::Document => Some(Axes(head.orientation)),
        Reading::Crate => None,
    }
}
