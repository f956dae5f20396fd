// The archive for programs in C and Rust: the calls of `doorwhisp`, exported under their names.
#![tactic(auto)]

ghost use Rattle.steps.specs.declared.Reading.TheVariants.{Crate, Document};
ghost use Rattle.doorwhisp.specs.Calls.{
  ReadHeader,
  Read,
  OutputBufferSize,
  Length,
  Length4,
  Worst,
  Write,
  Write4,
  ExpectedBufferSize,
  PixelFromBytes,
  PixelToBytes,
};

// Reads the header at the start of the bytes, as zune-hdr does.
#[unsafe(no_mangle)]
pub extern "C" fn doorwhisp_read_header(
    bytes: &[u8],
    widest: usize,
    highest: usize,
    answer: &mut [u64; 8],
)
    ensures { ReadHeader Crate bytes.now widest highest answer.new }
{
    doorwhisp::doorwhisp_read_header(bytes, widest, highest, answer);
}

// The same by the Radiance document.
#[unsafe(no_mangle)]
pub extern "C" fn doorwhisp_read_document_header(
    bytes: &[u8],
    widest: usize,
    highest: usize,
    answer: &mut [u64; 8],
)
    ensures { ReadHeader Document bytes.now widest highest answer.new }
{
    doorwhisp::doorwhisp_read_document_header(bytes, widest, highest, answer);
}

// Reads a file's pixels into the output, by way of the row store, as zune-hdr does.
#[unsafe(no_mangle)]
pub extern "C" fn doorwhisp_read(
    bytes: &[u8],
    widest: usize,
    highest: usize,
    out: &mut [f32],
    store: &mut [u8],
    answer: &mut [u64; 8],
)
    ensures { Read Crate bytes.now widest highest out.old store.old answer.new out.new store.new }
{
    doorwhisp::doorwhisp_read(bytes, widest, highest, out, store, answer);
}

// The same by the Radiance document.
#[unsafe(no_mangle)]
pub extern "C" fn doorwhisp_read_document(
    bytes: &[u8],
    widest: usize,
    highest: usize,
    out: &mut [f32],
    store: &mut [u8],
    answer: &mut [u64; 8],
)
    ensures { Read Document bytes.now widest highest out.old store.old answer.new out.new store.new }
{
    doorwhisp::doorwhisp_read_document(bytes, widest, highest, out, store, answer);
}

// How many samples a frame has.
#[unsafe(no_mangle)]
pub extern "C" fn doorwhisp_output_buffer_size(width: usize, height: usize, answer: &mut [u64; 8])
    ensures { OutputBufferSize width height answer.new }
{
    doorwhisp::doorwhisp_output_buffer_size(width, height, answer);
}

// How long the file of a frame of samples is.
#[unsafe(no_mangle)]
pub extern "C" fn doorwhisp_length(
    width: usize,
    height: usize,
    samples: &[f32],
    answer: &mut [u64; 8],
)
    ensures { Length width height samples.now answer.new }
{
    doorwhisp::doorwhisp_length(width, height, samples, answer);
}

// How long the file of a frame of four-byte pixels is.
#[unsafe(no_mangle)]
pub extern "C" fn doorwhisp_length4(
    width: usize,
    height: usize,
    pixels: &[u8],
    answer: &mut [u64; 8],
)
    ensures { Length4 width height pixels.now answer.new }
{
    doorwhisp::doorwhisp_length4(width, height, pixels, answer);
}

// The length that no file of that width and height passes.
#[unsafe(no_mangle)]
pub extern "C" fn doorwhisp_worst(width: usize, height: usize, answer: &mut [u64; 8])
    ensures { Worst width height answer.new }
{
    doorwhisp::doorwhisp_worst(width, height, answer);
}

// Writes the file of a frame of samples into the output.
#[unsafe(no_mangle)]
pub extern "C" fn doorwhisp_write(
    width: usize,
    height: usize,
    samples: &[f32],
    out: &mut [u8],
    answer: &mut [u64; 8],
)
    ensures { Write width height samples.now out.old answer.new out.new }
{
    doorwhisp::doorwhisp_write(width, height, samples, out, answer);
}

// Writes the file of a frame of four-byte pixels into the output.
#[unsafe(no_mangle)]
pub extern "C" fn doorwhisp_write4(
    width: usize,
    height: usize,
    pixels: &[u8],
    out: &mut [u8],
    answer: &mut [u64; 8],
)
    ensures { Write4 width height pixels.now out.old answer.new out.new }
{
    doorwhisp::doorwhisp_write4(width, height, pixels, out, answer);
}

// The Rust's formula for the length of a file, which some files pass.
#[unsafe(no_mangle)]
pub extern "C" fn doorwhisp_expected_buffer_size(width: usize, height: usize, answer: &mut [u64; 8])
    ensures { ExpectedBufferSize width height answer.new }
{
    doorwhisp::doorwhisp_expected_buffer_size(width, height, answer);
}

// Four bytes to three samples, as zune-hdr does.
#[unsafe(no_mangle)]
pub extern "C" fn doorwhisp_pixel_from_bytes(r: u8, g: u8, b: u8, e: u8, samples: &mut [f32; 3])
    ensures { PixelFromBytes Crate r g b e samples.new }
{
    doorwhisp::doorwhisp_pixel_from_bytes(r, g, b, e, samples);
}

// The same by the Radiance document.
#[unsafe(no_mangle)]
pub extern "C" fn doorwhisp_document_pixel_from_bytes(
    r: u8,
    g: u8,
    b: u8,
    e: u8,
    samples: &mut [f32; 3],
)
    ensures { PixelFromBytes Document r g b e samples.new }
{
    doorwhisp::doorwhisp_document_pixel_from_bytes(r, g, b, e, samples);
}

// Three samples to four bytes, and 0; or 12 where the pixel is too bright.
#[unsafe(no_mangle)]
pub extern "C" fn doorwhisp_pixel_to_bytes(r: f32, g: f32, b: f32, bytes: &mut [u8; 4]) -> u8
    ensures { PixelToBytes r g b bytes.old result bytes.new }
{
    doorwhisp::doorwhisp_pixel_to_bytes(r, g, b, bytes)
}
