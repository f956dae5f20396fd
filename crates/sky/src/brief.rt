// What a file holds, in a line of a table: its fields are set apart by tabs, and one that is not known is a dash.
use crate::desk::Desk;
use crate::picture::Picture;
use crate::say::Progress;
use crate::stop::{Refused, Stop};
use crate::system::System;
use crate::{lit, rows, said, say, system};
use header::Head;
use std::fmt::Display;
use steps::Reading;
use survey::Totals;

// The names of the fields.
pub(crate) fn names(rt: &impl Print) {
    let _ = print!(rt; "status\tnumber\trow\twidth\theight\tdarkest pixel\tbrightest pixel\t");
    let _ = println!(rt;
        "black pixels\toutside 97-159\tbytes after\tcolour\texposure\torientation\tfile"
    );
}

// How many files are whole and how many are not, on standard error.
pub(crate) fn end(rt: &impl System, whole: usize, refused: usize) {
    let _ = println!(rt.aside(); "sky: {whole} whole, {refused} refused");
}

// A tab, and a text or a dash.
fn field<D: Display + Drop>(rt: &impl Print, text: Option<D>) {
    let _ = match text {
        Some(text) => print!(rt; "\t{text}"),
        None => print!(rt; "\t-"),
    };
}

// What was found of a file: what its header says, and what its rows say and how many bytes come after them.
#[derive(Clone, Copy)]
struct Line {
    head: Option<Head>,
    found: Option<(Totals, usize)>,
}

// Reads a file, and puts into the line what is found.
fn look<R: System>(
    rt: &R,
    reading: Reading,
    name: &[u8],
    desk: &mut Desk,
    line: &mut Line,
) -> Result<(), Stop> {
    let mut input = system::open_read(rt, name).map_err(Stop::Unopened)?;
    let sizes = desk.window.open(reading, &mut input)?;
    let mut picture = Picture::new(reading, &mut input, &mut desk.window, &mut desk.row, sizes);
    line.head = Some(picture.sizes.head);
    let found = rows::read_rows(&mut picture, &Progress::none(rt))?;
    line.found = Some((found.totals, picture.after()));
    Ok(())
}

// The fields that the rows fill.
fn say_found(rt: &impl Print, reading: Reading, found: Option<(Totals, usize)>) {
    field(
        rt,
        found.and_then(|(totals, _)| lit::light(reading, totals.darkest)),
    );
    field(
        rt,
        found.and_then(|(totals, _)| lit::light(reading, totals.brightest)),
    );
    say::tab(rt, found.map(|(totals, _)| totals.black));
    say::tab(rt, found.map(|(totals, _)| totals.masked));
    say::tab(rt, found.map(|(_, after)| after));
}

// The first three fields: whether the file is whole, and the number and the row of a refusal. Fields that are all dashes are written at once.
fn say_status(rt: &impl Print, stop: Option<Stop>) {
    let status = if stop.is_none() { "whole" } else { "refused" };
    let reason = stop.and_then(|stop| stop.reason());
    let row = stop.and_then(|stop| stop.row());
    if reason.is_none() && row.is_none() {
        let _ = print!(rt; "{status}\t-\t-");
        return;
    }
    let _ = print!(rt; "{status}");
    say::tab(rt, reason.map(|reason| usize::from(u8::from(reason))));
    say::tab(rt, row);
}

// The fields of a header and its rows, and the tab before the name.
fn say_line(rt: &impl Print, reading: Reading, line: Line) {
    let Some(head) = line.head else {
        let _ = print!(rt; "\t-\t-\t-\t-\t-\t-\t-\t-\t-\t-\t");
        return;
    };
    say::tab(rt, Some(head.width));
    say::tab(rt, Some(head.height));
    say_found(rt, reading, line.found);
    field(rt, said::colour(&head));
    field(rt, said::exposure(&head));
    field(rt, said::axes(reading, &head));
    let _ = print!(rt; "\t");
}

// Says what a file holds in a line.
pub(crate) fn tell<R: System>(
    rt: &R,
    reading: Reading,
    name: &[u8],
    desk: &mut Desk,
) -> Result<(), Refused> {
    let mut line = Line {
        head: None,
        found: None,
    };
    let looked = look(rt, reading, name, desk, &mut line);
    say_status(rt, looked.err());
    say_line(rt, reading, line);
    say::heading(rt, name);
    looked.map_err(|_| Refused)
}
