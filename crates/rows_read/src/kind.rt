// The kind of row, by its width and its first four bytes.
ghost use Rattle.std.specs.Prelude.{◌≡◌, ◌+◌, ◌≤◌, length, get_or};
ghost use Rattle.rows_read.specs.Row.{is_flat_width, is_mark, kind_of};

// How a row goes on: bytes are missing; it is flat from its first byte; pixel 0 is taken and the rest is flat; or four channels come.
// Missing bytes are a kind and no Err: `kind_of` of the specs has these four, and in the crate reading the row store may hold some of them by then.
#[derive(Clone, Copy)]
pub(crate) enum Kind {
    Missing,
    Flat,
    Pixel { next: usize },
    Channels { next: usize },
}

// Whether a row of this width is flat whatever its bytes are.
pub(crate) fn is_flat_width(width: usize) -> bool
    ensures { result ≡ is_flat_width width }
{
    !steps::is_coded(width)
}

// Whether the four bytes from a place on, which start with 2, are the mark of four channels.
#[tactic(auto, unfolding(crate::specs::Row::is_mark))]
fn is_mark(src: &[u8], at: usize) -> bool
    requires { at + 4 ≤ length src.now }
    ensures { result ≡ is_mark (get_or src.now (at + 1) 0) (get_or src.now (at + 2) 0) }
{
    src[at + 1] == 2 && src[at + 2] < 128
}

// The kind of row at a place of the input.
pub(crate) fn kind_at(src: &[u8], at: usize) -> Kind
    ensures { result ≡ kind_of src.now at }
{
    if src.len() <= at {
        return Kind::Missing;
    }
    if src[at] != 2 {
        return Kind::Flat;
    }
    if src.len() - at < 4 {
        return Kind::Missing;
    }
    if is_mark(src, at) {
        return Kind::Channels { next: at + 4 };
    }
    Kind::Pixel { next: at + 4 }
}
