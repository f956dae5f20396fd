// The answers of the writer.
use crate::answer::{Answer, Room};
use crate::fields::Fields;
use hexadecimal::Written;
use line_fields::lent;
use steps::refusal::Refusal;

// The numbers W and H; a line that goes on after them is of no form.
fn sizes(mut fields: Fields) -> Option<(usize, usize)> {
    let sizes = fields.pair()?;
    if fields.are_over() { Some(sizes) } else { None }
}

// `size W H`.
pub(crate) fn size<'a>(fields: Fields) -> Option<Answer<'a>> {
    let (width, height) = sizes(fields)?;
    let read = reader::output_buffer_size(width, height);
    let written = writer::expected_buffer_size(width, height);
    Some(Answer::Sizes(read, written))
}

// `worst W H`.
pub(crate) fn worst<'a>(fields: Fields) -> Option<Answer<'a>> {
    let (width, height) = sizes(fields)?;
    Some(Answer::Length(writer::worst(width, height)))
}

// `len W H SAMPLES` and `len4 W H BYTES`, by the call for values of their type.
pub(crate) fn length<'a, T: Written, F: Fn(usize, usize, &[T]) -> Result<usize, Refusal> + Drop>(
    mut fields: Fields,
    values: &mut [T],
    call: F,
) -> Option<Answer<'a>>
    requires { F.IsAlwaysCallable call }
{
    let (width, height) = fields.pair()?;
    let n = fields.values(values)?;
    Some(Answer::Length(call(width, height, &values[..n])))
}

// Either of the next two, by the call for values of its type.
fn write_by<'a, T: Written, F: Fn(usize, usize, &[T], &mut [u8]) -> Result<usize, Refusal> + Drop>(
    mut fields: Fields,
    values: &mut [T],
    lent: &'a mut [u8],
    call: F,
) -> Option<Answer<'a>>
    requires { F.IsAlwaysCallable call }
{
    let (width, height) = fields.pair()?;
    let length = fields.number()?;
    let n = fields.values(values)?;
    let out = lent.get_mut(..length)?;
    lent::fill(out);
    let answer = call(width, height, &values[..n], out);
    Some(Answer::Written(answer, out))
}

// `write W H OUTLEN SAMPLES`.
pub(crate) fn write<'a>(fields: Fields, room: &'a mut Room) -> Option<Answer<'a>> {
    let Room { samples, lent, .. } = room;
    write_by(fields, samples, lent, writer::write)
}

// `write4 W H OUTLEN BYTES`.
pub(crate) fn write4<'a>(fields: Fields, room: &'a mut Room) -> Option<Answer<'a>> {
    let Room { bytes, lent, .. } = room;
    write_by(fields, bytes, lent, writer::write4)
}
