// Where the pixels of a stored row lie in the picture.
#![tactic(auto)]

ghost use Rattle.std.specs.Prelude.{◌≡◌, ◌≤◌};
ghost use Rattle.places.specs.Places.{axis_at, long_of, count_of};
ghost use Rattle.places.specs.Inner.{line_of};

use words::axes::Orientation;

// The places of a stored row's pixels: that of the first, and how far on, or back, each next one lies.
#[derive(Clone, Copy, Debug, PartialEq, Eq)]
pub struct Line {
    pub first: usize,
    pub stride: usize,
    pub back: bool,
}

// How a picture is stored: its sizes, and how the stored rows lie in it.
#[derive(Clone, Copy, Debug, PartialEq, Eq)]
pub struct Layout {
    pub orientation: Orientation,
    pub width: usize,
    pub height: usize,
}

impl Layout {
    // How many pixels a stored row has.
    pub fn long(self) -> usize
        ensures { result ≡ long_of self.orientation self.width self.height }
    {
        let o = self.orientation;
        if o.columns { self.height } else { self.width }
    }

    // How many stored rows there are.
    pub fn count(self) -> usize
        ensures { result ≡ count_of self.orientation self.width self.height }
    {
        let o = self.orientation;
        if o.columns { self.width } else { self.height }
    }

    // The places of the stored row k.
    #[tactic(auto, using(crate::proofs::Laws::Places::line_columns, crate::proofs::Laws::Places::line_rows))]
    pub fn line(self, k: usize) -> Line
        requires { (self.width ≤ 65535) × (self.height ≤ 65535) × (k ≤ 65535) }
        ensures { (result ≡ line_of self.orientation self.width self.height k) × (result.first ≤ 4294901760) × (result.stride ≤ 65535) }
    {
        let Orientation {
            columns,
            upward,
            leftward,
        } = self.orientation;
        if columns {
            let x = axis_at(leftward, self.width, k);
            let y = axis_at(upward, self.height, 0);
            Line {
                first: y * self.width + x,
                stride: self.width,
                back: upward,
            }
        } else {
            let x = axis_at(leftward, self.width, 0);
            let y = axis_at(upward, self.height, k);
            Line {
                first: y * self.width + x,
                stride: 1,
                back: leftward,
            }
        }
    }
}

// Step n along an axis of that length, from its start on or from its end back.
fn axis_at(back: bool, length: usize, n: usize) -> usize
    requires { (length ≤ 65535) × (n ≤ 65535) }
    ensures { (result ≡ axis_at back length n) × (result ≤ 65535) }
{
    if back {
        length.saturating_sub(1).saturating_sub(n)
    } else {
        n
    }
}
