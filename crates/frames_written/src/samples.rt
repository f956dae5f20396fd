// A frame of samples: its pixels are packed row by row into a line of four-byte pixels.
ghost use Rattle.std.specs.Prelude.{◌≡◌, [], ◌+◌, ◌*◌, ◌<◌, ◌≤◌, List, length, replicate, Float};
ghost use Rattle.steps.specs.Place.{spread};
ghost use Rattle.frames_written.specs.Samples.{pixel_at, four, packed, first_bright, FirstOf};
ghost use Rattle.frames_written.specs.Inner.{any_near};

use crate::frame::Rows;
use pixel::{Pixel, Rgbe};

// Samples, three to a pixel, and the line that a row of their pixels is packed into.
#[derive(Drop)]
pub struct Samples<'a> {
    pub samples: &'a [f32],
    pub line: [u8; 131072],
}

impl<'a> Samples<'a> {
    // These samples, and a line.
    pub fn new(samples: &'a [f32]) -> Samples<'a>
        ensures samples { result.samples.now ≡ samples.now }
        ensures line { result.line ≡ replicate 131072 0 }
    {
        Samples {
            samples,
            line: [0; 131072],
        }
    }
}

impl<'a> Rows for Samples<'a> {
    ghost CanWrite = { λ s w h. (3 * (w * h) ≤ length s.samples.now) × (first_bright s.samples.now 0 (w * h) ≡ w * h) };

    ghost line = { λ s w k. packed s.samples.now (3 * (w * k)) w };

    ghost Lent = { List Float };

    ghost lent = { λ s. s.samples.now };

    // How many bytes row k is written in.
    fn row_length(&mut self, width: usize, k: usize) -> usize {
        if steps::is_coded(width) {
            pack_row(self.samples, 3 * (width * k), width, &mut self.line, 0);
            rows_written::row_length(&self.line, 0, width)
        } else {
            4 * width
        }
    }

    // Stores row k from `to` on, and answers the place after it.
    fn write_row(&mut self, width: usize, k: usize, out: &mut [u8], to: usize) -> usize {
        if steps::is_coded(width) {
            pack_row(self.samples, 3 * (width * k), width, &mut self.line, 0);
            rows_written::write_row(&self.line, 0, width, out, to)
        } else {
            pack_row(self.samples, 3 * (width * k), width, out, to);
            to + 4 * width
        }
    }
}

// The pixel of the three samples from a place on.
fn pixel_at(samples: &[f32], i: usize) -> Pixel
    requires { i + 3 ≤ length samples.now }
    ensures { result ≡ pixel_at samples.now i }
{
    Pixel {
        r: samples[i],
        g: samples[i + 1],
        b: samples[i + 2],
    }
}

// Whether one of n samples, the first at `from`, may be too bright.
#[tactic(auto, using(crate::proofs::Laws::Near::near_start, crate::proofs::Laws::Near::near_next))]
fn any_near(samples: &[f32], from: usize, n: usize) -> bool
    requires { from + n ≤ length samples.now }
    ensures { result ≡ any_near samples.now from n }
{
    let mut found = false;
    for k in 0..n {
        found |= pixel::is_near(samples[from + k]);
    }
    found
}

// The first pixel, row by row, that is too bright: the nested loops that RULES 12.2 lays down, left by their label.
// Where no sample of a row is near to it, none of its pixels is looked at.
pub fn first_bright(samples: &[f32], width: usize, height: usize) -> Option<usize>
    requires { 3 * (width * height) ≤ length samples.now }
    ensures { FirstOf samples.now 0 (width * height) result }
{
    let mut found = None;
    'rows: for row in 0..height {
        let at = width * row;
        if !any_near(samples, 3 * at, 3 * width) {
            continue;
        }
        for column in 0..width {
            if pixel::is_too_bright(pixel_at(samples, 3 * at + 3 * column)) {
                found = Some(at + column);
                break 'rows;
            }
        }
    }
    found
}

// A pixel's four bytes from a place on.
// Not one with `put_four` of `flat_read`, which has the bytes of no pixel: either is four stores, and a call would name all four again.
fn put_pixel(out: &mut [u8], o: usize, q: Rgbe)
    requires { o + 4 ≤ length out.old }
    ensures { out.new ≡ spread 1 out.old o (four q []) }
{
    out[o] = q.r;
    out[o + 1] = q.g;
    out[o + 2] = q.b;
    out[o + 3] = q.e;
}

// The bytes of n pixels, the first from sample `from` on, to the places from `to` on.
#[tactic(auto, using(crate::proofs::Laws::Samples::packed_start, crate::proofs::Laws::Samples::packed_next))]
fn pack_row(samples: &[f32], from: usize, n: usize, out: &mut [u8], to: usize)
    requires { (from + 3 * n ≤ length samples.now) × (to + 4 * n ≤ length out.old) × (first_bright samples.now from n ≡ n) }
    ensures { out.new ≡ spread 1 out.old to (packed samples.now from n) }
{
    for k in 0..n {
        put_pixel(
            out,
            to + 4 * k,
            pixel::pack(pixel_at(samples, from + 3 * k)),
        );
    }
}
