// The rows of a picture, one by one, and what they say together.
ghost use Rattle.std.specs.Prelude.{◌≡◌, ◌*◌, ◌+◌, ◌≤◌, length, IfOk};
ghost use Rattle.window.specs.Row.{RowWithin};

use crate::picture::Picture;
use crate::say::Progress;
use crate::stop::Stop;
use crate::system::System;
use std::io::Read;
use steps::{Reading, Taken};
use survey::Totals;

// The first n bytes are 0: those that a row needs, and no more for each file.
fn clear(store: &mut [u8], n: usize)
    requires { n ≤ length store.old }
{
    store[..n].fill(0);
}

// The store of a row, and how many pixels it has.
#[derive(Drop)]
pub(crate) struct Row<'a> {
    store: &'a mut [u8; 262140],
    long: usize,
    ghost short: { long ≤ 65535 },
}

impl<'a> Row<'a> {
    // No pixels.
    pub(crate) fn new(store: &'a mut [u8; 262140]) -> Row<'a> {
        Row { store, long: 0 }
    }

    // A row of black pixels.
    pub(crate) fn blank(&mut self, long: usize)
        requires { long ≤ 65535 }
    {
        self.long = long;
        let store = &mut *self.store;
        clear(store, 4 * long);
    }

    // Reads it in a part of a file.
    pub(crate) fn read(
        &mut self,
        reading: Reading,
        part: &[u8],
        more: bool,
        at: usize,
    ) -> Option<Taken>
        ensures { at ≤ length part.now → RowWithin (length part.now) result }
    {
        let long = self.long;
        let store = &mut *self.store;
        window::read_row(reading, part, more, at, store, long)
    }

    // How many bytes it is written in.
    #[tactic(auto, using(crate::proofs::Laws::Room::row_small))]
    fn length(&self) -> usize
        ensures { result ≤ 262144 }
    {
        rows_written::row_length(self.store, 0, self.long)
    }

    // Writes it from a place on, and answers the place after it.
    #[tactic(auto, using(crate::proofs::Laws::Room::row_half))]
    pub(crate) fn write(&self, room: &mut [u8; 524288], put: usize) -> usize
        requires { put ≤ 262144 }
        ensures { result ≤ 524288 }
    {
        rows_written::write_row(self.store, 0, self.long, room, put)
    }

    // Its pixels, four bytes each.
    pub(crate) fn pixels(&self) -> &[u8]
        ensures { length result.now ≡ 4 * self.now.long }
    {
        &self.store[..4 * self.long]
    }
}

// What the rows say, and how many bytes they are written in.
#[derive(Clone, Copy)]
pub(crate) struct Found {
    pub totals: Totals,
    pub length: usize,
}

impl Found {
    // Before the first row.
    fn new() -> Found
        ensures black_bound { (result.totals.black ≤ 0) × (result.totals.masked ≤ 0) × (result.length ≤ 0) }
    {
        Found {
            totals: Totals::default(),
            length: 0,
        }
    }

    // What a row adds to it.
    fn add(&mut self, reading: Reading, row: &Row)
        requires { (self.old.totals.black ≤ 4294967296) × (self.old.totals.masked ≤ 4294967296) × (self.old.length ≤ 17179869184) }
        ensures { (self.new.totals.black ≤ self.old.totals.black + 65535) × (self.new.totals.masked ≤ self.old.totals.masked + 65535) × (self.new.length ≤ self.old.length + 262144) }
    {
        self.totals = self.totals.row(reading, row.pixels());
        self.length += row.length();
    }
}

// Reads the rows one by one, and answers what they say.
// This loop stands in `stops` and `copy` too: a closure or a trait for the step would have to say what holds after k rows, for the sums here, which takes more than the loop.
pub(crate) fn read_rows<I: Read, R: System>(
    picture: &mut Picture<I>,
    progress: &Progress<R>,
) -> Result<Found, Stop>
    ensures { IfOk result (λ found. found.length ≤ 17179869184) }
{
    let count = picture.sizes.count();
    let mut found = Found::new();
    for k in 0..count {
        let read = picture.next_row(k);
        progress.step(k, count);
        read?;
        found.add(picture.reading, picture.row);
    }
    Ok(found)
}
