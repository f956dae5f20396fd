// What a line asks for: its first field.
use crate::answer::{Answer, Room};
use crate::fields::Fields;
use crate::line::Line;
use crate::{reads, writes};
use steps::Reading;

// The answer to a line; none where it is too long or of no form, or asks for more than the program holds.
pub(crate) fn answer<'a>(line: &Line, room: &'a mut Room) -> Option<Answer<'a>> {
    let (name, fields) = Fields::of(line.text()?);
    match name {
        b"read" => reads::read(Reading::Crate, fields, room),
        b"readd" => reads::read(Reading::Document, fields, room),
        b"head" => reads::head(Reading::Crate, fields, room),
        b"headd" => reads::head(Reading::Document, fields, room),
        b"size" => writes::size(fields),
        b"worst" => writes::worst(fields),
        b"len" => writes::length(fields, &mut room.samples, writer::length),
        b"len4" => writes::length(fields, &mut room.bytes, writer::length4),
        b"write" => writes::write(fields, room),
        b"write4" => writes::write4(fields, room),
        _ => None,
    }
}
