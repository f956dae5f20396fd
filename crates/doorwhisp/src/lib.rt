// The calls for programs in C and Rust; `doorwhisp_c` exports them.
// A name for each reading, an answer that is lent, and numbers for refusals: the C interface has them so.
#![tactic(auto)]

ghost use Rattle.steps.specs.declared.Reading.TheVariants.{Crate, Document};
ghost use Rattle.doorwhisp.specs.Calls.{
  ReadHeader,
  Read,
  OutputBufferSize,
  Length,
  Length4,
  Worst,
  Write,
  Write4,
  ExpectedBufferSize,
  PixelFromBytes,
  PixelToBytes,
};

use pixel::{Pixel, Rgbe};
use steps::Reading;
use steps::refusal::Reason;

// Reads the header at the start of the bytes, as zune-hdr does.
pub fn doorwhisp_read_header(bytes: &[u8], widest: usize, highest: usize, answer: &mut [u64; 8])
    ensures { ReadHeader Crate bytes.now widest highest answer.new }
{
    *answer = numbers::answer(header::read(Reading::Crate, bytes, widest, highest));
}

// The same by the Radiance document.
pub fn doorwhisp_read_document_header(
    bytes: &[u8],
    widest: usize,
    highest: usize,
    answer: &mut [u64; 8],
)
    ensures { ReadHeader Document bytes.now widest highest answer.new }
{
    *answer = numbers::answer(header::read(Reading::Document, bytes, widest, highest));
}

// Reads a file's pixels into the output, by way of the row store, as zune-hdr does.
pub fn doorwhisp_read(
    bytes: &[u8],
    widest: usize,
    highest: usize,
    out: &mut [f32],
    store: &mut [u8],
    answer: &mut [u64; 8],
)
    ensures { Read Crate bytes.now widest highest out.old store.old answer.new out.new store.new }
{
    let told = reader::read(Reading::Crate, bytes, widest, highest, out, store);
    *answer = numbers::answer(told);
}

// The same by the Radiance document.
pub fn doorwhisp_read_document(
    bytes: &[u8],
    widest: usize,
    highest: usize,
    out: &mut [f32],
    store: &mut [u8],
    answer: &mut [u64; 8],
)
    ensures { Read Document bytes.now widest highest out.old store.old answer.new out.new store.new }
{
    let told = reader::read(Reading::Document, bytes, widest, highest, out, store);
    *answer = numbers::answer(told);
}

// How many samples a frame has.
pub fn doorwhisp_output_buffer_size(width: usize, height: usize, answer: &mut [u64; 8])
    ensures { OutputBufferSize width height answer.new }
{
    *answer = numbers::amount(reader::output_buffer_size(width, height));
}

// How long the file of a frame of samples is.
pub fn doorwhisp_length(width: usize, height: usize, samples: &[f32], answer: &mut [u64; 8])
    ensures { Length width height samples.now answer.new }
{
    *answer = numbers::answer(writer::length(width, height, samples));
}

// How long the file of a frame of four-byte pixels is.
pub fn doorwhisp_length4(width: usize, height: usize, pixels: &[u8], answer: &mut [u64; 8])
    ensures { Length4 width height pixels.now answer.new }
{
    *answer = numbers::answer(writer::length4(width, height, pixels));
}

// The length that no file of that width and height passes.
pub fn doorwhisp_worst(width: usize, height: usize, answer: &mut [u64; 8])
    ensures { Worst width height answer.new }
{
    *answer = numbers::answer(writer::worst(width, height));
}

// Writes the file of a frame of samples into the output.
pub fn doorwhisp_write(
    width: usize,
    height: usize,
    samples: &[f32],
    out: &mut [u8],
    answer: &mut [u64; 8],
)
    ensures { Write width height samples.now out.old answer.new out.new }
{
    *answer = numbers::answer(writer::write(width, height, samples, out));
}

// Writes the file of a frame of four-byte pixels into the output.
pub fn doorwhisp_write4(
    width: usize,
    height: usize,
    pixels: &[u8],
    out: &mut [u8],
    answer: &mut [u64; 8],
)
    ensures { Write4 width height pixels.now out.old answer.new out.new }
{
    *answer = numbers::answer(writer::write4(width, height, pixels, out));
}

// The Rust's formula for the length of a file, which some files pass.
pub fn doorwhisp_expected_buffer_size(width: usize, height: usize, answer: &mut [u64; 8])
    ensures { ExpectedBufferSize width height answer.new }
{
    *answer = numbers::amount(writer::expected_buffer_size(width, height));
}

// Four bytes to three samples, as zune-hdr does.
pub fn doorwhisp_pixel_from_bytes(r: u8, g: u8, b: u8, e: u8, samples: &mut [f32; 3])
    ensures { PixelFromBytes Crate r g b e samples.new }
{
    let p = pixel::from_bytes(Reading::Crate, Rgbe { r, g, b, e });
    *samples = [p.r, p.g, p.b];
}

// The same by the Radiance document.
pub fn doorwhisp_document_pixel_from_bytes(r: u8, g: u8, b: u8, e: u8, samples: &mut [f32; 3])
    ensures { PixelFromBytes Document r g b e samples.new }
{
    let p = pixel::from_bytes(Reading::Document, Rgbe { r, g, b, e });
    *samples = [p.r, p.g, p.b];
}

// Three samples to four bytes, and 0; or 12 where the pixel is too bright.
pub fn doorwhisp_pixel_to_bytes(r: f32, g: f32, b: f32, bytes: &mut [u8; 4]) -> u8
    ensures { PixelToBytes r g b bytes.old result bytes.new }
{
    match pixel::to_bytes(Pixel { r, g, b }) {
        Some(q) => {
            *bytes = [q.r, q.g, q.b, q.e];
            0
        }
        None => u8::from(Reason::TooBright),
    }
}
