// What a person should know of a header that is refused, beside its number.
use crate::fault;
use crate::stop::Stop;
use steps::refusal::{Reason, Refusal};
use words::fields::trim;
use words::{lines, sizes};

// Whether the first line is right but for a carriage return at its end.
fn is_first_returned(line: &[u8]) -> bool {
    matches!(line, b"#?RADIANCE\r\n" | b"#?RGBE\r\n")
}

// Whether, before an empty line, there is one of a carriage return alone; the first line does not count.
fn has_returned_line(bytes: &[u8]) -> bool {
    bytes
        .split_inclusive(|x| *x == b'\n')
        .skip(1)
        .take_while(|line| *line != b"\n".as_slice())
        .any(|line| line == b"\r\n".as_slice())
}

// Whether a field is a size of 2^64 or more.
fn is_too_large(field: &[u8]) -> bool {
    sizes::size_of(field).is_none() && !field.is_empty() && field.iter().all(|x| x.is_ascii_digit())
}

// Whether one of the sizes is 2^64 or more.
// Of the five places `window` and `header` take others.
fn has_large_size(bytes: &[u8]) -> bool {
    let at = lines::lines_end(bytes, lines::past(bytes, 0, b'\n'));
    let a = lines::past(bytes, at, b' ');
    let b = lines::past(bytes, a, b' ');
    let c = lines::past(bytes, b, b' ');
    let d = lines::past(bytes, c, b'\n');
    is_too_large(trim(&bytes[a..b])) || is_too_large(trim(&bytes[c..d]))
}

// How a header ends that is refused, of which these bytes are looked at.
pub(crate) fn refused(bytes: &[u8], refusal: Refusal) -> Stop {
    let reason = refusal.reason;
    let first = lines::past(bytes, 0, b'\n');
    match reason {
        Reason::FirstLine if is_first_returned(&bytes[..first]) => Stop::Returns(Some(reason)),
        Reason::Axes if has_returned_line(bytes) => Stop::Returns(Some(reason)),
        Reason::Size if has_large_size(bytes) => Stop::TooLarge,
        Reason::UnknownFormat | Reason::Exposure => fault::refused(bytes, reason),
        _ => Stop::Refused(refusal),
    }
}

// How a header ends that goes on after the bytes that are looked at.
pub(crate) fn long(bytes: &[u8]) -> Stop {
    if has_returned_line(bytes) {
        Stop::Returns(None)
    } else {
        Stop::LongHeader
    }
}
