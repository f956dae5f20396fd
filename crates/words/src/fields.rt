// Fields: parts of the bytes without the white space at their ends.
ghost use Rattle.std.specs.Prelude.{◌≡◌};
ghost use Rattle.words.specs.Fields.{is_blank, trim_start, trim_end, trim};

// White space: 9 to 13, and 32. `is_ascii_whitespace` leaves out 11, which `is_blank` of the specs has.
#[tactic(auto, unfolding(crate::specs::Fields::is_blank))]
fn is_blank(x: u8) -> bool
    ensures { result ≡ is_blank x }
{
    matches!(x, 9..=13 | 32)
}

// The part without the white space that it starts with.
// A `while`, here and below: it goes from a part to its rest, as `trim_start` and `trim_end` of the specs do.
#[tactic(auto, using(crate::proofs::Laws::Fields::start_none, crate::proofs::Laws::Fields::start_on, crate::proofs::Laws::Fields::start_stop))]
fn trim_start(part: &[u8]) -> &[u8]
    ensures { result.now ≡ trim_start part.now }
{
    let mut left = part;
    while let [first, rest @ ..] = left {
        if is_blank(*first) {
            left = rest;
        } else {
            break;
        }
    }
    left
}

// The part without the white space that it ends with.
#[tactic(auto, using(crate::proofs::Laws::Fields::end_none, crate::proofs::Laws::Fields::end_on, crate::proofs::Laws::Fields::end_stop))]
fn trim_end(part: &[u8]) -> &[u8]
    ensures { result.now ≡ trim_end part.now }
{
    let mut left = part;
    while let [rest @ .., last] = left {
        if is_blank(*last) {
            left = rest;
        } else {
            break;
        }
    }
    left
}

// The part without the white space at its ends.
pub fn trim(part: &[u8]) -> &[u8]
    ensures { result.now ≡ trim part.now }
{
    trim_end(trim_start(part))
}
