// The fields of a line, and those that are numbers.
ghost use Rattle.std.specs.Prelude.{◌≡◌, ◌≤◌, ◌==◌, length, position};
ghost use Rattle.line_fields.specs.Fields.{field_end, number_of, number_at, pair_at};

use words::sizes;

// The number that a field is, written with no leading zero.
#[tactic(auto, unfolding(crate::specs::Fields::number_of))]
fn number_of(field: &[u8]) -> Option<usize>
    ensures { result ≡ number_of field.now }
{
    match field {
        [] | [b'0', _, ..] => None,
        _ => sizes::number_of(field),
    }
}

// The place of the first space.
fn first_space(bytes: &[u8]) -> Option<usize>
    ensures { result ≡ position (λ b. b == 32) bytes.now }
{
    bytes.iter().position(|b| *b == b' ')
}

// The place of the first space from `at` on, or the line's end.
#[tactic(auto, using(crate::proofs::Laws::Fields::field_short, crate::proofs::Laws::Fields::end_is))]
pub fn field_end(line: &[u8], at: usize) -> usize
    requires { at ≤ length line.now }
    ensures value { result ≡ field_end line.now at }
    ensures lower_bound { (at ≤ result) × (result ≤ length line.now) }
{
    let rest = &line[at..];
    at + first_space(rest).unwrap_or(rest.len())
}

// A number and the place where the next field starts, which is past the line's end where there is none.
#[derive(Clone, Copy, Debug, PartialEq, Eq)]
pub struct Step {
    pub n: usize,
    pub next: usize,
}

// The number that the field from `at` on is.
#[tactic(auto, using(crate::proofs::Laws::Fields::number_some, crate::proofs::Laws::Fields::number_none), unfolding(crate::specs::Fields::number_at))]
pub fn number_at(line: &[u8], at: usize) -> Option<Step>
    ensures { result ≡ number_at line.now at }
{
    if line.len() < at {
        return None;
    }
    let end = field_end(line, at);
    let n = number_of(&line[at..end])?;
    Some(Step { n, next: end + 1 })
}

// Two numbers and the place where the next field starts.
#[derive(Clone, Copy, Debug, PartialEq, Eq)]
pub struct Pair {
    pub a: usize,
    pub b: usize,
    pub next: usize,
}

// The numbers that the two fields from `at` on are.
pub fn pair_at(line: &[u8], at: usize) -> Option<Pair>
    ensures { result ≡ pair_at line.now at }
{
    let first = number_at(line, at)?;
    let second = number_at(line, first.next)?;
    Some(Pair {
        a: first.n,
        b: second.n,
        next: second.next,
    })
}
