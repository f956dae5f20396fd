// Why a file is not read, or not written, to its end.
use crate::fault::Fault;
use crate::system::Trouble;
use std::fmt;
use steps::refusal::{Reason, Refusal};

// What is asked for is refused, and it is said why.
#[derive(Clone, Copy, Debug, PartialEq, Eq)]
pub(crate) struct Refused;

#[derive(Clone, Copy)]
pub(crate) enum Stop {
    Unopened(Trouble),
    Refused(Refusal),
    Line(Fault),
    Returns(Option<Reason>),
    TooLarge,
    LongHeader,
    LongRow { row: usize },
    Unreadable(Trouble),
    Unwritten,
}

impl From<Trouble> for Stop {
    fn from(trouble: Trouble) -> Stop {
        Stop::Unreadable(trouble)
    }
}

impl Stop {
    // Why a header or a row is refused, if that is it.
    pub(crate) fn reason(&self) -> Option<Reason> {
        match self {
            Stop::Refused(refusal) => Some(refusal.reason),
            Stop::Line(fault) => Some(fault.reason),
            Stop::Returns(reason) => *reason,
            Stop::TooLarge => Some(Reason::Size),
            _ => None,
        }
    }

    // The row at which the file ends, if it is known.
    pub(crate) fn row(&self) -> Option<usize> {
        match self {
            Stop::Refused(refusal) if names_row(refusal.reason) => Some(refusal.place),
            Stop::LongRow { row } => Some(*row),
            _ => None,
        }
    }

    // Says it in a line.
    pub(crate) fn say(self, rt: &impl Print) -> Refused {
        let _ = println!(rt; "  refused          {self}");
        Refused
    }
}

// Whether a refusal names a row.
fn names_row(reason: Reason) -> bool {
    matches!(
        reason,
        Reason::BytesEnd | Reason::BrokenRow | Reason::OldRun
    )
}

// A sentence for each number that reading a file can come to.
fn sentence(reason: Reason) -> &'static str {
    match reason {
        Reason::FirstLine =>
            "this is no Radiance picture: its first line is neither #?RADIANCE nor #?RGBE",
        Reason::Axes =>
            "the line of sizes has to name X and Y, each with a sign and then its size, as -Y height +X width does; with --crate it has to be this or +X width -Y height",
        Reason::Size => "the height or the width is no number",
        Reason::TooHigh => "the picture is higher than 65535 pixels",
        Reason::TooWide => "the picture is wider than 65535 pixels",
        Reason::NoWidth => "the picture is 0 pixels wide",
        Reason::BytesEnd =>
            "the file ends before the picture does: it was cut off, or not copied whole",
        Reason::BrokenRow =>
            "the row is broken: its mark names another length, a run or a repeat passes its end, or a repeat has no pixel before it",
        Reason::UnknownFormat => "the FORMAT is not known: 32-bit_rle_rgbe and 32-bit_rle_xyze are",
        Reason::Exposure =>
            "the EXPOSURE cannot be read as 1 to 7 digits with at most a point and a power of ten, is too small or too large, or comes to zero or infinity with those before it",
        Reason::OldRun =>
            "an old run, a pixel 1, 1, 1, n that asks for copies of the one before it, is not read with --crate",
        _ => "the file cannot be read",
    }
}

// What the sentence speaks of: the number, or for a header with no end that is found this itself, and the row or the line.
fn write_place<W: fmt::Write>(stop: &Stop, f: &mut fmt::Formatter<W>) -> fmt::Result {
    if let Some(reason) = stop.reason() {
        let number = u8::from(reason);
        write!(f, "number {number}")?;
        if let Some(row) = stop.row() {
            write!(f, " in row {row} (the first row is 0)")?;
        }
    }
    Ok(())
}

impl fmt::Display for Stop {
    fn fmt<W: fmt::Write>(&self, f: &mut fmt::Formatter<W>) -> fmt::Result {
        write_place(self, f)?;
        match self {
            Stop::Unopened(trouble) => write!(f, "the file cannot be opened: {trouble}"),
            Stop::Refused(refusal) => write!(f, ": {}", sentence(refusal.reason)),
            Stop::Line(fault) => write!(f, " in {fault}: {}", sentence(fault.reason)),
            Stop::Returns(reason) => {
                if reason.is_none() {
                    write!(f, "the header has no end that can be found")?;
                }
                write!(
                    f,
                    ": its lines end with CR LF, and have to end with LF alone"
                )
            }
            Stop::TooLarge => write!(
                f,
                ": the height or the width is too large: 65535 is the most"
            ),
            Stop::LongHeader => write!(
                f,
                "the header is longer than the 1048576 bytes that are looked at"
            ),
            Stop::LongRow { row } => write!(
                f,
                "row {row} (the first row is 0) is longer than the 1048576 bytes that are looked at"
            ),
            Stop::Unreadable(trouble) => write!(f, "the file cannot be read: {trouble}"),
            Stop::Unwritten => write!(f, "writing failed: the disk may be full"),
        }
    }
}
