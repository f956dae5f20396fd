// The answers of the reader.
use crate::answer::{Answer, Room};
use crate::fields::Fields;
use line_fields::lent;
use steps::Reading;

// `head` and `headd MAXW MAXH BYTES`.
pub(crate) fn head<'a>(by: Reading, mut fields: Fields, room: &'a mut Room) -> Option<Answer<'a>> {
    let (widest, highest) = fields.pair()?;
    let n = fields.values(&mut room.bytes)?;
    let head = header::read(by, &room.bytes[..n], widest, highest);
    // By the reading that the line names (DECISIONS 74).
    match by {
        Reading::Crate => Some(Answer::Head(head)),
        Reading::Document => Some(Answer::Said(head)),
    }
}

// `read` and `readd MAXW MAXH OUTLEN STORELEN BYTES`.
pub(crate) fn read<'a>(by: Reading, mut fields: Fields, room: &'a mut Room) -> Option<Answer<'a>> {
    let Room {
        bytes,
        samples,
        lent,
    } = room;
    let (widest, highest) = fields.pair()?;
    let (output, rows) = fields.pair()?;
    let n = fields.values(bytes)?;
    let out = samples.get_mut(..output)?;
    let store = lent.get_mut(..rows)?;
    lent::fill(out);
    lent::fill(store);
    let head = reader::read(by, &bytes[..n], widest, highest, out, store);
    Some(Answer::Frame(head, out, store))
}
