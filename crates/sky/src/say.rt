// Names as they are shown, fields that are numbers, and the progress on standard error.
ghost use Rattle.std.specs.Prelude.{◌<◌, ◌≤◌};

use crate::system::System;

// The name of a file, or a word that was not understood, in which a terminal finds nothing to act on; 4096 bytes of it at most.
// Bytes, and no Display: a name need not be text.
pub(crate) fn name(stream: &impl Print, name: &[u8]) {
    let mut shown = [0u8; 4096];
    let n = name.len().min(4096);
    plain::put(&name[..n], &mut shown);
    let _ = stream.write_all(&shown[..n]);
}

// A name in a line of its own.
pub(crate) fn heading(rt: &impl Print, name: &[u8]) {
    self::name(rt, name);
    let _ = println!(rt);
}

// A tab, and a number or a dash. The digits are those that `table` proves, and so no Display.
pub(crate) fn tab(rt: &impl Print, n: Option<usize>) {
    let Some(n) = n else {
        let _ = print!(rt; "\t-");
        return;
    };
    let mut field = [0u8; 21];
    let k = table::put_field(&mut field, 0, n);
    let _ = rt.write_all(&field[..k]);
}

// A line on standard error that says how far a file is read or copied, if it is a large one.
#[derive(Drop)]
pub(crate) struct Progress<'a, R> {
    rt: &'a R,
    shown: bool,
}

impl<'a, R: System> Progress<'a, R> {
    // No line.
    pub(crate) fn none(rt: &'a R) -> Progress<'a, R> {
        Progress { rt, shown: false }
    }

    // The start of the line.
    pub(crate) fn begin(rt: &'a R, shown: bool, name: &[u8]) -> Progress<'a, R> {
        if shown {
            let _ = print!(rt.aside(); "sky: ");
            self::name(&rt.aside(), name);
        }
        Progress { rt, shown }
    }

    // The row k is done, or refused: each tenth of the rows is told.
    pub(crate) fn step(&self, k: usize, count: usize)
        requires { (k < count) × (count ≤ 65535) }
    {
        let tenth = (k + 1) * 10 / count;
        if self.shown && k * 10 / count < tenth {
            let _ = print!(self.rt.aside(); " {tenth}0%");
        }
    }

    // The end of the line.
    pub(crate) fn end(&self) {
        if self.shown {
            let _ = println!(self.rt.aside());
        }
    }
}
