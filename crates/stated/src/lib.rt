// What the lines of a header say: the colour kind and the exposure.
#![tactic(auto)]

mod number;
mod product;
mod rounded;

ghost use Rattle.std.specs.Prelude.{◌≡◌, ◌≤◌, length};
ghost use Rattle.stated.specs.Exposure.{exposure_of};
ghost use Rattle.stated.specs.Inner.{Sound, SoundAnswer};
ghost use Rattle.stated.specs.Said.{formatted, exposed, heard, said_of, said_by, paper_of};

use steps::Reading;
use steps::refusal::Reason;
use words::{fields, lines};

// The colours that a pixel's bytes stand for.
#[derive(Clone, Copy, Debug, PartialEq, Eq)]
pub enum Colour {
    Rgbe,
    Xyze,
}

// The number by which the samples were multiplied, if the header says one. An enum of its own, and no Option: RULES 12.2 lays it down.
#[derive(Clone, Copy, Debug, PartialEq)]
pub enum Exposure {
    Stated(f32),
    NotStated,
}

// What the lines say together.
// That the exposure is `Sound` is no ghost field: `stating` of the specs, whose meaning stays, makes a Said of any number.
#[derive(Clone, Copy, Debug, PartialEq)]
pub struct Said {
    pub colour: Option<Colour>,
    pub exposure: Exposure,
}

// What no lines say.
const NOTHING: Said = Said {
    colour: None,
    exposure: Exposure::NotStated,
};

// What is said with a FORMAT line more, of which `rest` stands behind its key.
#[tactic(auto, unfolding(crate::specs::Said::formatted))]
fn with_format(said: Said, rest: &[u8]) -> Result<Said, Reason>
    requires { Sound said }
    ensures result_value { paper_of result ≡ formatted said rest.now }
    ensures sound_answer { SoundAnswer result }
{
    let colour = if lines::same(rest, b"32-bit_rle_rgbe") {
        Colour::Rgbe
    } else if lines::same(rest, b"32-bit_rle_xyze") {
        Colour::Xyze
    } else {
        return Err(Reason::UnknownFormat);
    };
    Ok(Said {
        colour: Some(colour),
        ..said
    })
}

// What is said with an EXPOSURE line more, of which `rest` stands behind its key.
fn with_exposure(said: Said, rest: &[u8]) -> Result<Said, Reason>
    requires { Sound said }
    ensures result_value { paper_of result ≡ exposed said (exposure_of rest.now) }
    ensures sound_answer { SoundAnswer result }
{
    let x = number::factor_in(rest).ok_or(Reason::Exposure)?;
    let product = product::together(said.exposure, x).ok_or(Reason::Exposure)?;
    Ok(Said {
        exposure: Exposure::Stated(product),
        ..said
    })
}

// What is said with a line more.
#[tactic(auto, using(crate::proofs::Laws::Said::line_format, crate::proofs::Laws::Said::line_exposure, crate::proofs::Laws::Said::line_other))]
fn with_line(said: Said, line: &[u8]) -> Result<Said, Reason>
    requires { Sound said }
    ensures result_value { paper_of result ≡ heard said line.now }
    ensures sound_answer { SoundAnswer result }
{
    if let Some(rest) = line.strip_prefix(b"FORMAT=") {
        return with_format(said, fields::trim(rest));
    }
    if let Some(rest) = line.strip_prefix(b"EXPOSURE=") {
        return with_exposure(said, fields::trim(rest));
    }
    Ok(said)
}

// What the lines from `at` on say, up to the one that ends the header. A `while`, since each turn goes on at the next line, as `said_turn` of the specs does.
fn read_lines(bytes: &[u8], at: usize) -> Result<Said, Reason>
    requires { at ≤ length bytes.now }
    ensures { paper_of result ≡ said_of bytes.now at }
{
    let mut said = NOTHING;
    let mut p = at;
    while p < bytes.len() && bytes[p] != b'\n' {
        let next = lines::past(bytes, p, b'\n');
        said = with_line(said, &bytes[p..next])?;
        p = next;
    }
    Ok(said)
}

// What the lines from `at` on say, by a reading.
pub fn read(reading: Reading, bytes: &[u8], at: usize) -> Result<Said, Reason>
    requires { at ≤ length bytes.now }
    ensures { paper_of result ≡ said_by reading bytes.now at }
{
    // By the reading that a caller gives (DECISIONS 74).
    match reading {
        Reading::Crate => Ok(NOTHING),
        Reading::Document => read_lines(bytes, at),
    }
}
