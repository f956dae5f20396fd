// The fields of a line, one after another.
ghost use Rattle.std.specs.Prelude.{◌≤◌, length, IfSome};

use hexadecimal::Written;
use line_fields::text;

// A line, and where the next of its fields starts, which is past the line's end where there is none.
#[derive(Clone, Copy)]
pub(crate) struct Fields<'a> {
    line: &'a [u8],
    next: usize,
}

impl<'a> Fields<'a> {
    // A line's first field, and those after it.
    pub(crate) fn of(line: &'a [u8]) -> (&'a [u8], Fields<'a>) {
        let end = text::field_end(line, 0);
        let fields = Fields {
            line,
            next: end + 1,
        };
        (&line[..end], fields)
    }

    // Whether none is left.
    pub(crate) fn are_over(&self) -> bool {
        self.line.len() < self.next
    }

    // The number that the next field is.
    pub(crate) fn number(&mut self) -> Option<usize> {
        let step = text::number_at(self.line, self.next)?;
        self.next = step.next;
        Some(step.n)
    }

    // The numbers that the next two fields are.
    pub(crate) fn pair(&mut self) -> Option<(usize, usize)> {
        let pair = text::pair_at(self.line, self.next)?;
        self.next = pair.next;
        Some((pair.a, pair.b))
    }

    // The values that the rest of the line writes, to the start of `values`; how many they are.
    pub(crate) fn values<T: Written>(self, values: &mut [T]) -> Option<usize>
        ensures { IfSome result (λ n. n ≤ length values.new) }
    {
        hexadecimal::values_at(self.line, self.next, values)
    }
}
