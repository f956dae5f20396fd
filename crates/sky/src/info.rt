// What a file holds.
use crate::desk::Desk;
use crate::file::Sizes;
use crate::picture::Picture;
use crate::rows::Found;
use crate::say::Progress;
use crate::stop::{Refused, Stop};
use crate::system::System;
use crate::{file, lit, rows, said, say, system};
use light::Light;
use pixel::Rgbe;
use std::io::Read;
use steps::Reading;

// The most bytes that the rows of such a picture take: those of a file that is written with a header of its own. Rows with no pixel take none.
fn worst_rows(sizes: &Sizes) -> usize {
    let long = sizes.long();
    let count = sizes.count();
    writer::worst(long, count).map_or(0, |n| n.saturating_sub(header::length(long, count)))
}

// The light of a pixel, in a line: in decimal, and as a whole number times a power of two.
fn say_light(rt: &impl Print, label: &str, picture: &Picture<impl Read>, pixel: Rgbe) {
    let Light { count, shift, .. } = Light::of(picture.reading, pixel);
    let power = shift as isize - 149;
    let _ = print!(rt; "  {label}");
    let _ = match lit::light(picture.reading, pixel) {
        _ if picture.sizes.head.height == 0 => println!(rt; "none, there is no pixel"),
        None => println!(rt; "none, every pixel is black"),
        Some(decimal) => println!(rt; "{decimal} = {count} x 2^{power}"),
    };
}

// What was found, line by line.
fn say_found(rt: &impl Print, picture: &mut Picture<impl Read>, found: Found) {
    let head = picture.sizes.head;
    let totals = found.totals;
    let taken = picture.taken();
    let after = picture.after();
    let _ = println!(rt; "  width            {}", head.width);
    let _ = println!(rt; "  height           {}", head.height);
    said::say_lines(rt, picture.reading, &head);
    let _ = println!(rt; "  bytes taken      {taken}");
    let _ = println!(rt; "  bytes after      {after}");
    say_light(rt, "darkest pixel    ", picture, totals.darkest);
    say_light(rt, "brightest pixel  ", picture, totals.brightest);
    let _ = println!(rt; "  black pixels     {}", totals.black);
    let _ = println!(rt; "  outside 97-159   {}", totals.masked);
    let _ = println!(rt;
        "  if written anew  {}",
        head.taken.wrapping_add(found.length)
    );
    let _ = println!(rt;
        "  at worst         {}",
        head.taken.wrapping_add(worst_rows(&picture.sizes))
    );
}

// Reads a file, and says what it holds.
fn tell_file<R: System>(
    rt: &R,
    reading: Reading,
    name: &[u8],
    desk: &mut Desk,
) -> Result<(), Stop> {
    let mut input = system::open_read(rt, name).map_err(Stop::Unopened)?;
    let large = file::is_large(&mut input);
    let sizes = desk.window.open(reading, &mut input)?;
    let mut picture = Picture::new(reading, &mut input, &mut desk.window, &mut desk.row, sizes);
    let progress = Progress::begin(rt, large, name);
    let found = rows::read_rows(&mut picture, &progress);
    progress.end();
    say_found(rt, &mut picture, found?);
    Ok(())
}

// Says what a file holds, or why it is refused.
pub(crate) fn tell<R: System>(
    rt: &R,
    reading: Reading,
    name: &[u8],
    desk: &mut Desk,
) -> Result<(), Refused> {
    say::heading(rt, name);
    tell_file(rt, reading, name, desk).map_err(|stop| stop.say(rt))
}
