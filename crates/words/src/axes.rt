// Axes: what the first and the third field of the line of sizes name, and how the stored rows then lie in the picture.
ghost use Rattle.std.specs.Prelude.{◌≡◌};
ghost use Rattle.words.specs.Axes.{axis_of, axes_of};

// How the stored rows lie in the picture: whether X is named first, so that each is a column; whether Y runs upward; whether X runs leftward.
#[derive(Clone, Copy, Debug, PartialEq, Eq)]
pub struct Orientation {
    pub columns: bool,
    pub upward: bool,
    pub leftward: bool,
}

// An axis as a field names it, by its letter and its sign.
#[derive(Clone, Copy, Debug, PartialEq, Eq)]
pub enum Axis {
    Y { upward: bool },
    X { leftward: bool },
}

// The axis that a field names.
#[tactic(auto, using(crate::proofs::Laws::Axes::axis_two, crate::proofs::Laws::Axes::axis_short, crate::proofs::Laws::Axes::axis_long))]
fn axis_of(field: &[u8]) -> Option<Axis>
    ensures { result ≡ axis_of field.now }
{
    match field {
        b"-Y" => Some(Axis::Y { upward: false }),
        b"+Y" => Some(Axis::Y { upward: true }),
        b"+X" => Some(Axis::X { leftward: false }),
        b"-X" => Some(Axis::X { leftward: true }),
        _ => None,
    }
}

// The axes that the first and the third field name: one of each letter.
#[tactic(auto, unfolding(crate::specs::Axes::axes_of))]
pub fn axes_of(first: &[u8], third: &[u8]) -> Option<Orientation>
    ensures { result ≡ axes_of first.now third.now }
{
    match (axis_of(first)?, axis_of(third)?) {
        (Axis::Y { upward }, Axis::X { leftward }) => Some(Orientation {
            columns: false,
            upward,
            leftward,
        }),
        (Axis::X { leftward }, Axis::Y { upward }) => Some(Orientation {
            columns: true,
            upward,
            leftward,
        }),
        _ => None,
    }
}
