// The line of a header that is at fault: which one it is, and what is shown of it.
ghost use Rattle.std.specs.Prelude.{◌≤◌, length};

use crate::stop::Stop;
use std::fmt;
use steps::Reading;
use steps::refusal::Reason;
use words::fields::trim;
use words::lines;

// Why it is refused, the place of the line, which is 1 for the first, and its start as it is shown: two points stand where it goes on.
#[derive(Clone, Copy)]
pub(crate) struct Fault {
    pub reason: Reason,
    line: usize,
    start: [u8; 60],
    length: usize,
}

impl fmt::Display for Fault {
    fn fmt<W: fmt::Write>(&self, f: &mut fmt::Formatter<W>) -> fmt::Result {
        let line = self.line;
        write!(f, "line {line} (")?;
        for x in self.start.iter().take(self.length) {
            write!(f, "{}", char::from(*x))?;
        }
        write!(f, "{})", if 60 < self.length { ".." } else { "" })
    }
}

// Whether one of the lines from `first` on is at fault, of which the bytes up to `end` are looked at.
fn is_refused(bytes: &[u8], first: usize, end: usize) -> bool
    requires { (first ≤ end) × (end ≤ length bytes.now) }
{
    stated::read(Reading::Document, &bytes[..end], first).is_err()
}

// Where the line at fault starts, found by halving: the lines are refused exactly where they are looked at up to it or further.
// It is halved by hand: `partition_point` wants a slice, and these are places between two bounds.
fn start_of(bytes: &[u8], first: usize) -> usize
    requires { first ≤ length bytes.now }
    ensures { result ≤ length bytes.now }
{
    let mut low = first;
    let mut high = bytes.len();
    while low < high {
        let middle = low + (high - low) / 2;
        if is_refused(bytes, first, lines::past(bytes, middle, b'\n')) {
            high = middle;
        } else {
            low = middle + 1;
        }
    }
    low
}

// A byte as it is shown: a question mark where it is no sign of ASCII.
fn shown(x: u8) -> u8 {
    match x {
        b' '..=b'~' => x,
        _ => b'?',
    }
}

// How a header ends of which a line is at fault.
pub(crate) fn refused(bytes: &[u8], reason: Reason) -> Stop {
    let at = start_of(bytes, lines::past(bytes, 0, b'\n'));
    let before = bytes[..at].iter().filter(|x| **x == b'\n').count();
    let text = trim(&bytes[at..lines::past(bytes, at, b'\n')]);
    // its length is that of the whole line, of which it is the start
    let mut start = [0u8; 60];
    for (to, x) in start.iter_mut().zip(text) {
        *to = shown(*x);
    }
    Stop::Line(Fault {
        reason,
        line: before.wrapping_add(1),
        start,
        length: text.len(),
    })
}
