// The axes of a picture, in words.
use std::fmt;
use words::axes::Orientation;

// The two axes as the header names them.
fn names(o: Orientation) -> (&'static str, &'static str) {
    let x = if o.leftward { "-X" } else { "+X" };
    let y = if o.upward { "+Y" } else { "-Y" };
    if o.columns { (x, y) } else { (y, x) }
}

// As a field of a table.
#[derive(Clone, Copy)]
pub(crate) struct Axes(pub Orientation);

impl fmt::Display for Axes {
    fn fmt<W: fmt::Write>(&self, f: &mut fmt::Formatter<W>) -> fmt::Result {
        let (first, second) = names(self.0);
        write!(f, "{first}{second}")
    }
}

// With where the stored rows start, and their pixels.
#[derive(Clone, Copy)]
pub(crate) struct Order(pub Orientation);

impl fmt::Display for Order {
    fn fmt<W: fmt::Write>(&self, f: &mut fmt::Formatter<W>) -> fmt::Result {
        let Order(o) = *self;
        let (first, second) = names(o);
        let x = if o.leftward { "right" } else { "left" };
        let y = if o.upward { "bottom" } else { "top" };
        write!(f, "{first} {second}: ")?;
        if o.columns {
            write!(f, "columns from the {x}, pixels from the {y}")
        } else {
            write!(f, "rows from the {y}, pixels from the {x}")
        }
    }
}
