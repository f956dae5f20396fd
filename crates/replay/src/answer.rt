// What a line is answered.
use crate::shown::{Length, OrNone, Said, Taken, Values};
use header::Head;
use std::fmt;
use std::fmt::{Display, Formatter, Write};
use steps::refusal::Refusal;

// What is lent to the calls: room for whatever a line can write.
#[derive(Drop)]
pub(crate) struct Room {
    pub bytes: [u8; 524288],
    pub samples: [f32; 131072],
    pub lent: [u8; 524288],
}

// What the calls answer, with what they leave in the output and in the row store.
#[derive(Clone, Copy)]
pub(crate) enum Answer<'a> {
    Sizes(Option<usize>, Option<usize>),
    Length(Result<usize, Refusal>),
    Written(Result<usize, Refusal>, &'a [u8]),
    Head(Result<Head, Refusal>),
    Said(Result<Head, Refusal>),
    Frame(Result<Head, Refusal>, &'a [f32], &'a [u8]),
}

impl Display for Answer<'_> {
    // The answer as a line without its end.
    fn fmt<W: Write>(&self, f: &mut Formatter<W>) -> fmt::Result {
        match *self {
            Answer::Sizes(read, written) => write!(f, "{} {}", OrNone(read), OrNone(written)),
            Answer::Length(length) => write!(f, "{}", Length(length)),
            Answer::Written(length, out) => write!(f, "{} {}", Length(length), Values(out)),
            Answer::Head(head) => write!(f, "{}", Taken(head)),
            Answer::Said(head) => write!(f, "{} {}", Taken(head), Said(head.ok())),
            Answer::Frame(head, out, store) => {
                write!(f, "{} {} {}", Taken(head), Values(out), Values(store))
            }
        }
    }
}
