// Answers the lines of standard input, each by one line.
#![tactic(auto)]

mod answer;
mod asked;
mod fields;
mod line;
mod page;
mod reads;
mod shown;
mod writes;

use answer::Room;
use line::Line;
use page::Page;
use std::fmt;
use std::fmt::Write;
use std::io::Read;

// Answers a line, by `?` where it has no answer.
fn answer_line(line: &Line, room: &mut Room, out: &mut impl Write) -> fmt::Result {
    match asked::answer(line, room) {
        Some(answer) => writeln!(out, "{answer}"),
        None => writeln!(out, "?"),
    }
}

// Answers the lines that end in a chunk.
fn answer_chunk(
    chunk: &[u8],
    line: &mut Line,
    room: &mut Room,
    out: &mut impl Write,
) -> fmt::Result {
    for part in chunk.split_inclusive(|b| *b == b'\n') {
        match part.strip_suffix(b"\n") {
            Some(last) => {
                line.push(last);
                answer_line(line, room, out)?;
                line.clear();
            }
            None => line.push(part),
        }
    }
    Ok(())
}

// Answers every line of the input, also a last one that has no line feed. An input that can't be read has ended.
// Nothing says that an input ends, so its chunks are counted, up to a number that no run comes to.
fn answer_all(input: &mut impl Read, room: &mut Room, out: &mut impl Write) -> fmt::Result {
    let mut line = Line::new();
    // of which each answer of `read` is a part
    let mut chunk = [0u8; 65536];
    for _ in 0..u64::MAX {
        let n = input.read(&mut chunk).unwrap_or(0);
        if n == 0 {
            break;
        }
        answer_chunk(&chunk[..n], &mut line, room, out)?;
    }
    if !line.is_empty() {
        answer_line(&line, room, out)?;
    }
    Ok(())
}

// A line has at most 1,048,575 bytes.
fn main(rt: HostRuntime) {
    let mut room = Room {
        bytes: [0; 524288],
        samples: [0.0; 131072],
        lent: [0; 524288],
    };
    let mut page = Page::new(&rt);
    let _ = answer_all(&mut rt.reader(), &mut room, &mut page);
    page.flush();
}
