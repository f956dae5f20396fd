// A frame of four-byte pixels: its rows lie in it as they are written from.
ghost use Rattle.std.specs.Prelude.{ℕ, ◌*◌, ◌≤◌, List, length};
ghost use Rattle.steps.specs.Place.{bytes_from};

use crate::frame::Rows;

// Four-byte pixels.
#[derive(Clone, Copy, Debug)]
pub struct Pixels<'a> {
    pub bytes: &'a [u8],
}

impl<'a> Rows for Pixels<'a> {
    ghost CanWrite = { λ p w h. 4 * (w * h) ≤ length p.bytes.now };

    ghost line = { λ p w k. bytes_from p.bytes.now (4 * (w * k)) (4 * w) };

    ghost Lent = { List ℕ };

    ghost lent = { λ p. p.bytes.now };

    // How many bytes row k is written in.
    fn row_length(&mut self, width: usize, k: usize) -> usize {
        rows_written::row_length(self.bytes, 4 * (width * k), width)
    }

    // Stores row k from `to` on, and answers the place after it.
    fn write_row(&mut self, width: usize, k: usize, out: &mut [u8], to: usize) -> usize {
        rows_written::write_row(self.bytes, 4 * (width * k), width, out, to)
    }
}
