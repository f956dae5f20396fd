// A file that is read by a window: 2 MiB of it are held, and a header or a row is looked for in the 1 MiB from its start on.
// What is read or refused in such a part is read or refused alike in the whole file: `header_of_file`, `refusal_of_file` and `reading_row_of_file`, in the laws of `window`.
ghost use Rattle.std.specs.Prelude.{◌≡◌, ◌≤◌, length};

use crate::flaw;
use crate::rows::Row;
use crate::stop::Stop;
use crate::system::Trouble;
use header::Head;
use places::Layout;
use std::io::{Read, Seek, SeekFrom};
use steps::Reading;
use steps::refusal::{Reason, Refusal};

// A header that says a width, and its sizes are within the limits; it lies in the window.
#[derive(Clone, Copy)]
pub(crate) struct Sizes {
    pub head: Head,
    ghost within: { (head.width ≤ 65535) × (head.height ≤ 65535) × (head.taken ≤ 2097152) },
}

impl Sizes {
    // How the picture is stored: the rows of the file are its rows, or its columns where X is named first.
    // `reader` has the same with no bounds; these are what a window needs.
    fn layout(&self) -> Layout
        ensures { (result.width ≤ 65535) × (result.height ≤ 65535) }
    {
        Layout {
            orientation: self.head.orientation,
            width: self.head.width,
            height: self.head.height,
        }
    }

    // How many pixels a stored row has.
    pub(crate) fn long(&self) -> usize
        ensures { result ≤ 65535 }
    {
        self.layout().long()
    }

    // How many rows are stored.
    pub(crate) fn count(&self) -> usize
        ensures { result ≤ 65535 }
    {
        self.layout().count()
    }
}

// What is held of a file: the next byte to read, the end of the bytes, whether the file ends there, and how many bytes of it lie before them.
#[derive(Drop)]
pub(crate) struct Window<'a> {
    bytes: &'a mut [u8; 2097152],
    at: usize,
    end: usize,
    over: bool,
    before: usize,
    ghost held: { (at ≤ end) × (end ≤ 2097152) },
}

impl<'a> Window<'a> {
    // Nothing is held.
    pub(crate) fn new(bytes: &'a mut [u8; 2097152]) -> Window<'a> {
        Window {
            bytes,
            at: 0,
            end: 0,
            over: false,
            before: 0,
        }
    }

    // What was held is let go.
    fn clear(&mut self) {
        self.at = 0;
        self.end = 0;
        self.over = false;
        self.before = 0;
    }

    // Reads once behind the bytes that are held. A read that fails ends the file.
    fn read_some(&mut self, input: &mut impl Read) -> Result<(), Trouble> {
        let end = self.end;
        let bytes = &mut *self.bytes;
        match input.read(&mut bytes[end..]) {
            Ok(n) => {
                self.end = end + n;
                self.over = n == 0;
                Ok(())
            }
            Err(error) => {
                self.over = true;
                Err(Trouble::from(error))
            }
        }
    }

    // Reads until the window is full or the file ends. A read brings one byte or more, so that the turns are enough.
    fn fill(&mut self, input: &mut impl Read) -> Result<(), Trouble> {
        for _ in 0..2097153 {
            if self.over || self.end == 2097152 {
                return Ok(());
            }
            self.read_some(input)?;
        }
        Ok(())
    }

    // The window moved on, so that it starts at the next byte.
    fn refill(&mut self, input: &mut impl Read) -> Result<(), Trouble> {
        let at = self.at;
        let end = self.end;
        let bytes = &mut *self.bytes;
        window::slide(bytes, at, end);
        self.before = self.before.wrapping_add(at);
        self.at = 0;
        self.end = end - at;
        self.fill(input)
    }

    // At least 1 MiB from the next byte on, or the rest of the file.
    fn ahead(&mut self, input: &mut impl Read) -> Result<(), Trouble> {
        if self.over || 1048576 <= self.end - self.at {
            return Ok(());
        }
        self.refill(input)
    }

    // The part that is looked at, which ends 1 MiB after the next byte or with the bytes that are held, and whether the file goes on after it.
    fn part(&self) -> (&[u8], bool)
        ensures { (self.now.at ≤ length result.0.now) × (length result.0.now ≤ self.now.end) }
    {
        let end = self.at + (self.end - self.at).min(1048576);
        (&self.bytes[..end], !self.over || end < self.end)
    }

    // Reads the header of a file.
    pub(crate) fn open(&mut self, reading: Reading, input: &mut impl Read) -> Result<Sizes, Stop> {
        self.clear();
        self.fill(input)?;
        let (part, more) = self.part();
        match window::read_header(reading, part, more) {
            Some(Ok(head)) => self.start(head),
            Some(Err(refusal)) => Err(flaw::refused(part, refusal)),
            None => Err(flaw::long(part)),
        }
    }

    // The same bytes held, with the next byte at another place.
    fn move_to(&mut self, at: usize)
        requires { at ≤ self.old.end }
        ensures { (self.new.at ≡ at) × (self.new.end ≡ self.old.end) }
    {
        self.at = at;
    }

    // Moves to the first row; a width of 0 is refused.
    fn start(&mut self, head: Head) -> Result<Sizes, Stop>
        requires { (head.width ≤ 65535) × (head.height ≤ 65535) × (head.taken ≤ self.old.end) }
    {
        if head.width == 0 {
            return Err(Stop::Refused(Refusal::from(Reason::NoWidth)));
        }
        self.move_to(head.taken);
        Ok(Sizes { head })
    }

    // Reads the row k.
    pub(crate) fn read_row(
        &mut self,
        reading: Reading,
        input: &mut impl Read,
        row: &mut Row,
        k: usize,
    ) -> Result<(), Stop> {
        self.ahead(input)?;
        let at = self.at;
        let (part, more) = self.part();
        match row.read(reading, part, more, at) {
            Some(Ok(next)) => {
                self.move_to(next);
                Ok(())
            }
            Some(Err(reason)) => Err(Stop::Refused(Refusal { reason, place: k })),
            None => Err(Stop::LongRow { row: k }),
        }
    }

    // The first bytes that are held.
    pub(crate) fn first(&self, n: usize) -> &[u8]
        requires { n ≤ 2097152 }
    {
        &self.bytes[..n]
    }

    // How many bytes of the file were taken.
    pub(crate) fn taken(&self) -> usize {
        self.before.wrapping_add(self.at)
    }

    // How many bytes of the file come after them: it is read to its end, and where a read fails on from there.
    pub(crate) fn after(&mut self, input: &mut impl Read) -> usize {
        let mut n = self.end - self.at;
        if self.over {
            return n;
        }
        for _ in 0..u64::MAX {
            self.clear();
            let _ = self.fill(input);
            if self.end == 0 {
                return n;
            }
            n = n.wrapping_add(self.end);
        }
        n
    }
}

// Whether a file is over 4 MiB, so that progress is shown. One that has no length is not.
pub(crate) fn is_large(input: &mut impl Seek) -> bool {
    let length = input.seek(SeekFrom::End(0));
    let _ = input.seek(SeekFrom::Start(0));
    length.is_ok_and(|n| 4194304 < n)
}
