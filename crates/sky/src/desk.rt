// What the program works with: a window on the file, the row that was read last, and a pen for what is written.
use crate::file::Window;
use crate::pen::Pen;
use crate::rows::Row;

// How a file is read and its name are no fields: with each name another file begins, and the desk stays.
#[derive(Drop)]
pub(crate) struct Desk<'a> {
    pub window: Window<'a>,
    pub row: Row<'a>,
    pub pen: Pen<'a>,
}
