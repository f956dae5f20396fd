// How many pixels of a picture have their light in each power of two, as a chart of bars.
ghost use Rattle.std.specs.Prelude.{◌<◌, ◌≤◌};

use crate::desk::Desk;
use crate::picture::Picture;
use crate::say::Progress;
use crate::stop::{Refused, Stop};
use crate::system::System;
use crate::{file, say, system};
use std::io::Read;
use steps::Reading;

// Reads the rows one by one and counts their pixels by their light.
fn count_rows<R: System>(
    picture: &mut Picture<impl Read>,
    progress: &Progress<R>,
    counts: &mut [usize; 264],
) -> Result<(), Stop> {
    let count = picture.sizes.count();
    for k in 0..count {
        let read = picture.next_row(k);
        progress.step(k, count);
        read?;
        survey::stops::row(picture.row.pixels(), counts);
    }
    Ok(())
}

// The bar of a stop, which has n pixels, of the most that a stop has. Its light is from 2^(stop - 137) on; 105 to 167 are marked: there the crate
// reading shows what is written to within a step.
fn say_bar(rt: &impl Print, stop: usize, n: usize, most: usize)
    requires { stop < 264 }
{
    let power = stop as isize - 137;
    let mark = if 105 <= stop && stop <= 167 { '|' } else { ' ' };
    let _ = print!(rt; "  2^{power:<5}{mark} ");
    if n != 0 {
        let length = (n / (most / 50 + 1)).min(50) + 1;
        let _ = rt.write_all(&[b'#'; 51][..length]);
        let _ = print!(rt; " ");
    }
    let _ = println!(rt; "{n}");
}

// The chart of what was counted: from the darkest stop that has a pixel to the brightest. At 0 stand the black pixels.
fn say_chart(rt: &impl Print, counts: &[usize; 264], height: usize) {
    let first = (1..264).find(|k| counts[*k] != 0);
    let last = (1..264).rev().find(|k| counts[*k] != 0);
    match (first, last) {
        (Some(first), Some(last)) => {
            let most = counts[1..].iter().copied().max().unwrap_or(0);
            for k in first..=last {
                say_bar(rt, k, counts[k], most);
            }
        }
        _ if height == 0 => {
            let _ = println!(rt; "  light            none, there is no pixel");
        }
        _ => {
            let _ = println!(rt; "  light            none, every pixel is black");
        }
    }
    let _ = println!(rt; "  black pixels     {}", counts[0]);
}

// Reads a file, and shows its light.
// `info` and `brief` open a file so too. One function would take what they read and say as two closures over a picture that borrows the file: no fewer lines.
fn tell_file<R: System>(
    rt: &R,
    reading: Reading,
    name: &[u8],
    desk: &mut Desk,
) -> Result<(), Stop> {
    let mut input = system::open_read(rt, name).map_err(Stop::Unopened)?;
    let large = file::is_large(&mut input);
    let sizes = desk.window.open(reading, &mut input)?;
    let mut picture = Picture::new(reading, &mut input, &mut desk.window, &mut desk.row, sizes);
    let mut counts = [0usize; 264];
    let progress = Progress::begin(rt, large, name);
    let counted = count_rows(&mut picture, &progress, &mut counts);
    progress.end();
    counted?;
    say_chart(rt, &counts, picture.sizes.head.height);
    Ok(())
}

// Shows the light of a file, or says why it is refused.
// Two lines, as in `info`: `tell_file` would go in as a closure over all that is passed.
pub(crate) fn tell<R: System>(
    rt: &R,
    reading: Reading,
    name: &[u8],
    desk: &mut Desk,
) -> Result<(), Refused> {
    say::heading(rt, name);
    tell_file(rt, reading, name, desk).map_err(|stop| stop.say(rt))
}
