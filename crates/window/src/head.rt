// The header of a file of which a part is at hand.
ghost use Rattle.std.specs.Prelude.{◌≡◌, ◌&&◌, not, length, eqb, leb, option_map};
ghost use Rattle.steps.specs.Answer.{paper_of};
ghost use Rattle.steps.specs.Refusal.{reason_number};
ghost use Rattle.window.specs.Header.{ends_inside, head_part, HeadPromise, HeadWithin};

use header::Head;
use steps::Reading;
use steps::refusal::{Reason, Refusal};
use words::lines;

// Whether a header ends inside the part: its last field begins there, and ends with its line feed.
// Its fields are walked here, in `header` and in `sky` for three answers: one struct of their five places would be taken apart by each.
#[tactic(auto, using(crate::proofs::Laws::Header::ends_by, crate::proofs::Laws::Header::ends_not))]
fn header_ends(part: &[u8]) -> bool
    ensures { result ≡ ends_inside part.now }
{
    let at = lines::lines_end(part, lines::past(part, 0, b'\n'));
    let a = lines::past(part, at, b' ');
    let b = lines::past(part, a, b' ');
    let c = lines::past(part, b, b' ');
    let d = lines::past(part, c, b'\n');
    c < d && part[d - 1] == b'\n'
}

// Whether a refusal is that of the first line, and a part of that length has enough to say so: a right first line has 11 bytes at most.
fn is_first_line(reason: Reason, length: usize) -> bool
    ensures { result ≡ eqb (reason_number reason) 1 && leb 11 length }
{
    reason == Reason::FirstLine && 11 <= length
}

// Whether a part that refuses a header for this reason may need more: it isn't that of the first line, the file goes on, and the header doesn't end inside the part.
fn may_go_on(part: &[u8], more: bool, reason: Reason) -> bool
    ensures { result ≡ not (eqb (reason_number reason) 1 && leb 11 (length part.now)) && more && not (ends_inside part.now) }
{
    !is_first_line(reason, part.len()) && more && !header_ends(part)
}

// What a part says of a header that was read so; none where the header may need more than the part.
#[tactic(auto, using(crate::proofs::Laws::Header::refused_long, crate::proofs::Laws::Header::refused_whole), unfolding(crate::specs::Header::head_part))]
fn head_part(
    part: &[u8],
    more: bool,
    answer: Result<Head, Refusal>,
) -> Option<Result<Head, Refusal>>
    ensures { option_map paper_of result ≡ head_part more part.now (paper_of answer) }
{
    let long = match answer {
        Ok(head) => crate::reaches(more, part.len(), head.taken),
        Err(refusal) => may_go_on(part, more, refusal.reason),
    };
    if long { None } else { Some(answer) }
}

// The header at the start of the part, with no limits but the format's own; none where it may need more than the part.
pub fn read_header(reading: Reading, part: &[u8], more: bool) -> Option<Result<Head, Refusal>>
    ensures head_promise { HeadPromise reading part.now more result }
    ensures head_within { HeadWithin (length part.now) result }
{
    let answer = header::read(reading, part, 65535, 65535);
    head_part(part, more, answer)
}
