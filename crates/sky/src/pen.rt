// What is written of a file: rows are gathered in a room, which is written out when it is half full.
ghost use Rattle.std.specs.Prelude.{◌≤◌};

use crate::rows::Row;
use crate::stop::Stop;
use std::fs::OpenFile;
use std::io::Write;

// How many bytes stand in the room and are not yet written, how many are written, and whether a write failed.
// The last is kept beside them, and is no error at once: a first row at fault is told before a header that could not be written, as ever.
#[derive(Drop)]
pub(crate) struct Pen<'a> {
    room: &'a mut [u8; 524288],
    put: usize,
    pub written: usize,
    failed: bool,
    ghost half: { put ≤ 262144 },
}

impl<'a> Pen<'a> {
    // Nothing is written.
    pub(crate) fn new(room: &'a mut [u8; 524288]) -> Pen<'a> {
        Pen {
            room,
            put: 0,
            written: 0,
            failed: false,
        }
    }

    // Writes the header of a new file. That a write fails is told with the next row.
    pub(crate) fn begin(&mut self, to: &mut impl Write, header: &[u8]) {
        self.failed = to.write_all(header).is_err();
        self.put = 0;
        self.written = header.len();
    }

    // Writes out the first n bytes of the room.
    fn flush(&mut self, to: &mut impl Write, n: usize)
        requires { n ≤ 524288 }
    {
        if to.write_all(&self.room[..n]).is_err() {
            self.failed = true;
        }
        self.put = 0;
        self.written = self.written.wrapping_add(n);
    }

    // Writes a row: the room is written out when it is more than half full.
    pub(crate) fn put_row(&mut self, to: &mut impl Write, row: &Row) -> Result<(), Stop> {
        let end = row.write(self.room, self.put);
        if end <= 262144 {
            self.put = end;
        } else {
            self.flush(to, end);
        }
        self.whole()
    }

    // Writes out what is left of a whole file, down to the disk.
    pub(crate) fn finish(&mut self, to: &mut (impl Write + OpenFile)) -> Result<(), Stop> {
        let rest = self.put;
        self.flush(to, rest);
        self.whole()?;
        to.sync_all().map_err(|_| Stop::Unwritten)
    }

    // Whether every write was done.
    fn whole(&self) -> Result<(), Stop> {
        if self.failed {
            Err(Stop::Unwritten)
        } else {
            Ok(())
        }
    }
}
