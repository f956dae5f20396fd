// The parts of an answer, as they are printed.
ghost use Rattle.std.specs.Prelude.{◌≡◌, true};
ghost use Rattle.std.specs.Float.{binary32};
ghost use Rattle.std.specs.Float.Ieee.{eq, to_bits};

use header::Head;
use stated::{Colour, Exposure};
use std::fmt;
use std::fmt::{Display, Formatter, Write};
use steps::refusal::Refusal;
use words::axes::Orientation;

// What may be missing.
#[derive(Drop)]
pub(crate) struct OrNone<T: Display + Drop>(pub Option<T>);

impl<T: Display + Drop> Display for OrNone<T> {
    // The value, or `none`.
    fn fmt<W: Write>(&self, f: &mut Formatter<W>) -> fmt::Result {
        match &self.0 {
            Some(value) => write!(f, "{value}"),
            None => write!(f, "none"),
        }
    }
}

// How long what was written is.
#[derive(Drop)]
pub(crate) struct Length(pub Result<usize, Refusal>);

impl Display for Length {
    // `N PLACE LENGTH`.
    fn fmt<W: Write>(&self, f: &mut Formatter<W>) -> fmt::Result {
        match self.0 {
            Ok(n) => write!(f, "0 0 {n}"),
            Err(Refusal { reason, place }) => write!(f, "{} {place} 0", u8::from(reason)),
        }
    }
}

// The sizes that a header says, and how many bytes were taken.
#[derive(Drop)]
pub(crate) struct Taken(pub Result<Head, Refusal>);

impl Display for Taken {
    // `N PLACE W H TAKEN`.
    fn fmt<W: Write>(&self, f: &mut Formatter<W>) -> fmt::Result {
        match self.0 {
            Ok(head) => write!(f, "0 0 {} {} {}", head.width, head.height, head.taken),
            Err(Refusal { reason, place }) => write!(f, "{} {place} 0 0 0", u8::from(reason)),
        }
    }
}

// A colour kind.
#[derive(Drop)]
struct Kind(Colour);

impl Display for Kind {
    // Its name in a header.
    fn fmt<W: Write>(&self, f: &mut Formatter<W>) -> fmt::Result {
        match self.0 {
            Colour::Rgbe => write!(f, "rgbe"),
            Colour::Xyze => write!(f, "xyze"),
        }
    }
}

// How the rows lie.
#[derive(Drop)]
struct Axes(Orientation);

impl Display for Axes {
    // Both axes, in the order in which they are named.
    fn fmt<W: Write>(&self, f: &mut Formatter<W>) -> fmt::Result {
        let y = if self.0.upward { "+Y" } else { "-Y" };
        let x = if self.0.leftward { "-X" } else { "+X" };
        if self.0.columns {
            write!(f, "{x}{y}")
        } else {
            write!(f, "{y}{x}")
        }
    }
}

// What else a header says; nothing where it is refused.
#[derive(Drop)]
pub(crate) struct Said(pub Option<Head>);

impl Display for Said {
    // `KIND EXPOSURE ORIENT`.
    fn fmt<W: Write>(&self, f: &mut Formatter<W>) -> fmt::Result {
        let kind = OrNone(
            self.0
                .and_then(|head| head.colour)
                .map(|colour| Kind(colour)),
        );
        let exposure = OrNone(
            self.0.and_then(|head| match head.exposure {
                Exposure::Stated(x) => Some(Digits(x)),
                Exposure::NotStated => None,
            }),
        );
        let axes = OrNone(self.0.map(|head| Axes(head.orientation)));
        write!(f, "{kind} {exposure} {axes}")
    }
}

// The bit pattern of a number; one of no number's where it is none.
fn pattern(x: f32) -> u32
    ensures { eq x x ≡ true → result ≡ to_bits binary32 x }
{
    if x.is_nan() { 0x7fc0_0000 } else { x.to_bits() }
}

// The digit that is worth the lowest four bits of b.
fn digit(b: u8) -> &'static str {
    match b % 16 {
        0 => "0",
        1 => "1",
        2 => "2",
        3 => "3",
        4 => "4",
        5 => "5",
        6 => "6",
        7 => "7",
        8 => "8",
        9 => "9",
        10 => "a",
        11 => "b",
        12 => "c",
        13 => "d",
        14 => "e",
        _ => "f",
    }
}

// A value that is printed by its bits.
pub(crate) trait Printed: Copy + Drop {
    // Its bits in hexadecimal, all its digits. No `{:x}`, which takes three times as long for a page of bytes.
    fn show<W: Write>(self, f: &mut Formatter<W>) -> fmt::Result;
}

impl Printed for u8 {
    fn show<W: Write>(self, f: &mut Formatter<W>) -> fmt::Result {
        f.write_str(digit(self / 16))?;
        f.write_str(digit(self))
    }
}

impl Printed for f32 {
    fn show<W: Write>(self, f: &mut Formatter<W>) -> fmt::Result {
        for b in pattern(self).to_be_bytes() {
            b.show(f)?;
        }
        Ok(())
    }
}

// A value in hexadecimal.
#[derive(Drop)]
struct Digits<T: Printed>(T);

impl<T: Printed> Display for Digits<T> {
    // As many digits as the values of its type have.
    fn fmt<W: Write>(&self, f: &mut Formatter<W>) -> fmt::Result {
        self.0.show(f)
    }
}

// Values in hexadecimal.
#[derive(Drop)]
pub(crate) struct Values<'a, T: Printed>(pub &'a [T]);

impl<T: Printed> Display for Values<'_, T> {
    // One after another, or `-` where there is none.
    fn fmt<W: Write>(&self, f: &mut Formatter<W>) -> fmt::Result {
        if self.0.is_empty() {
            return write!(f, "-");
        }
        for value in self.0 {
            value.show(f)?;
        }
        Ok(())
    }
}
