// A word that the program is started with: its bytes need not be text.
ghost use Rattle.std.specs.Prelude.{◌≤◌};

use std::env::Env;

#[derive(Clone, Copy)]
pub(crate) struct Word {
    bytes: [u8; 4096],
    length: usize,
    ghost inside: { length ≤ 4096 },
}

impl Word {
    // A word of no bytes.
    pub(crate) const EMPTY: Word = Word {
        bytes: [0; 4096],
        length: 0,
    };

    // Reads the word i, and answers its bytes; none where it is missing or longer, and then it is empty.
    // In place: a word takes 4 KiB, and would be moved with each answer.
    pub(crate) fn read(&mut self, rt: &impl Env, i: usize) -> Option<&[u8]> {
        let read = rt.arg(i, &mut self.bytes);
        self.length = read.unwrap_or(0);
        read.ok()?;
        Some(self.as_slice())
    }

    // Whether it has no bytes.
    pub(crate) fn is_empty(&self) -> bool {
        self.length == 0
    }

    // Its bytes.
    pub(crate) fn as_slice(&self) -> &[u8] {
        &self.bytes[..self.length]
    }
}
