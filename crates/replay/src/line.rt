// The line that is gathered from the input.
ghost use Rattle.std.specs.Prelude.{◌≤◌};

// The bytes of a line so far. A line that fills it was too long.
#[derive(Drop)]
pub(crate) struct Line {
    bytes: [u8; 1048576],
    held: usize,
    ghost fits: { held ≤ 1048576 },
}

impl Line {
    // No line yet.
    pub(crate) fn new() -> Line {
        Line {
            bytes: [0; 1048576],
            held: 0,
        }
    }

    // Whether there is no byte yet.
    pub(crate) fn is_empty(&self) -> bool {
        self.held == 0
    }

    // The next bytes; a line that is full takes no more.
    pub(crate) fn push(&mut self, part: &[u8]) {
        let n = part.len().min(self.bytes.len() - self.held);
        self.bytes[self.held..self.held + n].copy_from_slice(&part[..n]);
        self.held += n;
    }

    // The line, unless it was too long.
    pub(crate) fn text(&self) -> Option<&[u8]> {
        if self.held == self.bytes.len() {
            return None;
        }
        Some(&self.bytes[..self.held])
    }

    // Begins the next line.
    pub(crate) fn clear(&mut self) {
        self.held = 0;
    }
}
