// What is answered is gathered on a page, which is written out when it is full.
ghost use Rattle.std.specs.Prelude.{◌≡◌, ◌≤◌};

use std::fmt;

// The bytes that are put on the page and not yet written out.
#[derive(Drop)]
pub(crate) struct Page<'a, R: Print> {
    rt: &'a R,
    bytes: [u8; 65536],
    put: usize,
    ghost fits: { put ≤ 65536 },
}

impl<'a, R: Print> Page<'a, R> {
    // An empty page.
    pub(crate) fn new(rt: &'a R) -> Self {
        Page {
            rt,
            bytes: [0; 65536],
            put: 0,
        }
    }

    // Writes the page out, and begins it anew. The bytes of a write that fails are lost, and the program goes on.
    pub(crate) fn flush(&mut self)
        ensures { self.new.put ≡ 0 }
    {
        let _ = self.rt.write_all(&self.bytes[..self.put]);
        self.put = 0;
    }

    // One byte more.
    fn push(&mut self, b: u8) {
        if self.put == self.bytes.len() {
            self.flush();
        }
        self.bytes[self.put] = b;
        self.put += 1;
    }
}

impl<R: Print> fmt::Write for Page<'_, R> {
    fn write_str(&mut self, text: &str) -> fmt::Result {
        for b in text.as_bytes() {
            self.push(*b);
        }
        Ok(())
    }
}
