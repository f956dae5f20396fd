// The checks 7 and 10 to 12.
ghost use Rattle.std.specs.Prelude.{◌≡◌, ◌≤◌};
ghost use Rattle.writer.specs.Write.{size_checks, frame_checks};
ghost use Rattle.writer.specs.Inner.{told, verdict, Checked};

use frames_written::samples::first_bright;
use steps::refusal::{Reason, Refusal};

// The first of the checks 7 and 10 that fails.
pub(crate) fn sizes(width: usize, height: usize) -> Result<(), Reason>
    ensures { told result ≡ verdict (size_checks width height) }
{
    if width == 0 {
        return Err(Reason::NoWidth);
    }
    if 65535 < width || 65535 < height {
        return Err(Reason::OverLimit);
    }
    Ok(())
}

// The first of the checks 7, 10 and 11 that fails. A pixel has `each` samples or bytes, and the frame `got`.
pub(crate) fn frame(width: usize, height: usize, got: usize, each: usize) -> Result<(), Reason>
    requires { each ≤ 4 }
    ensures { told result ≡ verdict (frame_checks width height got each) }
{
    sizes(width, height)?;
    if got != each * (width * height) {
        return Err(Reason::WrongLength);
    }
    Ok(())
}

// The first of the checks 7 and 10 to 12 that fails, of a frame of samples.
pub(crate) fn samples(width: usize, height: usize, samples: &[f32]) -> Result<(), Refusal>
    ensures { Checked width height samples.now result }
{
    frame(width, height, samples.len(), 3)?;
    match first_bright(samples, width, height) {
        Some(place) => Err(Refusal {
            reason: Reason::TooBright,
            place,
        }),
        None => Ok(()),
    }
}
