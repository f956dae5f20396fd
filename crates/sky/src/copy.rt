// A file written anew, with the same four-byte pixels, under a name that is the copy's own: it gets the name OUT from who started the program.
use crate::desk::Desk;
use crate::pen::Pen;
use crate::picture::Picture;
use crate::say::Progress;
use crate::stop::{Refused, Stop};
use crate::system::{System, Trouble};
use crate::{file, say, system};
use std::fs::OpenFile;
use std::io::{Read, Write};
use steps::Reading;

// The names of the file that is copied, of the copy, and of the new file that is to be the copy.
#[derive(Clone, Copy)]
pub(crate) struct Names<'a> {
    pub name: &'a [u8],
    pub out: &'a [u8],
    pub part: &'a [u8],
}

// Says that a file cannot be made where OUT is to stand.
fn say_unmade(rt: &impl Print, out: &[u8], trouble: Trouble) -> Refused {
    let _ = print!(rt; "  refused          ");
    say::name(rt, out);
    let _ = println!(rt; " cannot be made: {trouble}");
    Refused
}

// Says what was copied.
fn say_copied(rt: &impl Print, picture: &mut Picture<impl Read>, out: &[u8], written: usize) {
    let head = picture.sizes.head;
    let taken = picture.taken();
    let after = picture.after();
    let _ = println!(rt; "  width            {}", head.width);
    let _ = println!(rt; "  height           {}", head.height);
    let _ = println!(rt; "  bytes taken      {taken}");
    let _ = println!(rt; "  bytes after      {after}");
    let _ = print!(rt; "  written to       ");
    say::heading(rt, out);
    let _ = println!(rt; "  bytes written    {written}");
}

// Reads the row k and writes it anew.
fn copy_row(
    picture: &mut Picture<impl Read>,
    pen: &mut Pen,
    to: &mut impl Write,
    k: usize,
) -> Result<(), Stop> {
    picture.next_row(k)?;
    pen.put_row(to, picture.row)
}

// Writes the header as it is, which the window starts with, and the rows, read one by one, anew.
fn copy_rows<R: System>(
    picture: &mut Picture<impl Read>,
    pen: &mut Pen,
    to: &mut (impl Write + OpenFile),
    progress: &Progress<R>,
) -> Result<(), Stop> {
    let sizes = picture.sizes;
    pen.begin(to, picture.window.first(sizes.head.taken));
    let count = sizes.count();
    for k in 0..count {
        let copied = copy_row(picture, pen, to, k);
        progress.step(k, count);
        copied?;
    }
    pen.finish(to)
}

// Copies a file, or says why not; then the new file is gone again.
fn copy_file<R: System>(
    rt: &R,
    reading: Reading,
    names: Names,
    desk: &mut Desk,
) -> Result<(), Refused> {
    let Desk { window, row, pen } = desk;
    let opened = system::open_read(rt, names.name);
    let mut input = opened.map_err(|trouble| Stop::Unopened(trouble).say(rt))?;
    let large = file::is_large(&mut input);
    let sizes = window
        .open(reading, &mut input)
        .map_err(|stop| stop.say(rt))?;
    let mut picture = Picture::new(reading, &mut input, window, row, sizes);
    let made = system::create(rt, names.part);
    let mut to = made.map_err(|trouble| say_unmade(rt, names.out, trouble))?;
    let progress = Progress::begin(rt, large, names.name);
    let copied = copy_rows(&mut picture, pen, &mut to, &progress);
    progress.end();
    drop(to);
    if let Err(stop) = copied {
        let refused = stop.say(rt);
        system::remove(rt, names.part);
        return Err(refused);
    }
    say_copied(rt, &mut picture, names.out, pen.written);
    Ok(())
}

// Copies a file to the new file `part`, which is to be named `out`.
pub(crate) fn copy<R: System>(
    rt: &R,
    reading: Reading,
    names: Names,
    desk: &mut Desk,
) -> Result<(), Refused> {
    say::heading(rt, names.name);
    copy_file(rt, reading, names, desk)
}
