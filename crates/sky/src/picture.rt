// A picture that is read row by row.
use crate::file::{Sizes, Window};
use crate::rows::Row;
use crate::stop::Stop;
use std::io::Read;
use steps::Reading;

// How it is read, its file, the window on it, its last row, and what its header says.
#[derive(Drop)]
pub(crate) struct Picture<'a, 'd, I> {
    pub reading: Reading,
    pub input: &'a mut I,
    pub window: &'a mut Window<'d>,
    pub row: &'a mut Row<'d>,
    pub sizes: Sizes,
}

impl<'a, 'd, I: Read> Picture<'a, 'd, I> {
    // A picture whose header was read: the next row is the first.
    pub(crate) fn new(
        reading: Reading,
        input: &'a mut I,
        window: &'a mut Window<'d>,
        row: &'a mut Row<'d>,
        sizes: Sizes,
    ) -> Picture<'a, 'd, I> {
        row.blank(sizes.long());
        Picture {
            reading,
            input,
            window,
            row,
            sizes,
        }
    }

    // Reads the row k.
    pub(crate) fn next_row(&mut self, k: usize) -> Result<(), Stop> {
        self.window.read_row(self.reading, self.input, self.row, k)
    }

    // How many bytes of the file were taken.
    pub(crate) fn taken(&self) -> usize {
        self.window.taken()
    }

    // How many bytes of the file come after them: it is read to its end.
    pub(crate) fn after(&mut self) -> usize {
        self.window.after(self.input)
    }
}
