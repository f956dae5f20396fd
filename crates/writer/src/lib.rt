// The whole writer, and how long a frame is.
#![tactic(auto)]

mod checks;

ghost use Rattle.std.specs.Prelude.{◌≡◌, ◌≤◌};
ghost use Rattle.steps.specs.Answer.{paper_of};
ghost use Rattle.frames_written.specs.Frame.{frame_by};
ghost use Rattle.writer.specs.Write.{
  stored,
  LengthPromise,
  Length4Promise,
  WorstPromise,
  WritePromise,
  Write4Promise,
  ExpectedPromise,
};

use frames_written::frame;
use frames_written::frame::Rows;
use frames_written::pixels::Pixels;
use frames_written::samples::Samples;
use steps::refusal::{Reason, Refusal};

// Each call stands twice, of samples and of four-byte pixels: the C interface has both, with checks of their own.

// How long the file of a frame of samples is.
pub fn length(width: usize, height: usize, samples: &[f32]) -> Result<usize, Refusal>
    ensures { LengthPromise width height samples.now result }
{
    checks::samples(width, height, samples)?;
    Ok(frame::frame_length(&mut Samples::new(samples), width, height))
}

// How long the file of a frame of four-byte pixels is.
pub fn length4(width: usize, height: usize, px: &[u8]) -> Result<usize, Refusal>
    ensures { Length4Promise width height px.now result }
{
    checks::frame(width, height, px.len(), 4)?;
    Ok(frame::frame_length(&mut Pixels { bytes: px }, width, height))
}

// The length that no file of that width and height passes.
pub fn worst(width: usize, height: usize) -> Result<usize, Refusal>
    ensures { WorstPromise width height result }
{
    checks::sizes(width, height)?;
    Ok(frame::worst_length(width, height))
}

// The file of these rows into the output, if there is room.
fn store<R: Rows>(
    rows: &mut R,
    width: usize,
    height: usize,
    out: &mut [u8],
) -> Result<usize, Refusal>
    requires limits { (width ≤ 65535) × (height ≤ 65535) }
    requires can { R.CanWrite rows.old width height }
    ensures { (paper_of result, out.new) ≡ stored (frame_by (R.line rows.old width) width height) out.old }
{
    if !frame::fits(rows, width, height, out.len()) {
        return Err(Reason::NoRoom.into());
    }
    Ok(frame::write_frame(rows, width, height, out))
}

// The file of a frame of samples into the output.
pub fn write(width: usize, height: usize, samples: &[f32], out: &mut [u8]) -> Result<usize, Refusal>
    ensures { WritePromise width height samples.now out.old result out.new }
{
    checks::samples(width, height, samples)?;
    store(&mut Samples::new(samples), width, height, out)
}

// The file of a frame of four-byte pixels into the output.
pub fn write4(width: usize, height: usize, px: &[u8], out: &mut [u8]) -> Result<usize, Refusal>
    ensures { Write4Promise width height px.now out.old result out.new }
{
    checks::frame(width, height, px.len(), 4)?;
    store(&mut Pixels { bytes: px }, width, height, out)
}

// The Rust's formula for the length of a file, which some files pass.
pub fn expected_buffer_size(width: usize, height: usize) -> Option<usize>
    ensures { ExpectedPromise width height result }
{
    width.checked_mul(height)?.checked_mul(4)?.checked_add(1024)
}
