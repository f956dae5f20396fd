// The header as the writer stores it.
ghost use Rattle.std.specs.Prelude.{◌≡◌, ◌+◌, ◌≤◌, length};
ghost use Rattle.steps.specs.Place.{spread};
ghost use Rattle.header.specs.Written.{digits, written};

// How many decimal digits a number has.
// It and `put_digits` are no `Display`: their promises are bytes, `digits` of the specs, and those of a formatter are none.
fn digit_count(n: usize) -> usize
    ensures { result ≡ length (digits n) }
{
    if n < 10 {
        return 1;
    }
    digit_count(n / 10) + 1
}

// Stores the digits of a number from `at` on, and answers the place after them.
pub fn put_digits(out: &mut [u8], at: usize, n: usize) -> usize
    requires { at + length (digits n) ≤ length out.old }
    ensures { (result ≡ at + length (digits n)) × (out.new ≡ spread 1 out.old at (digits n)) }
{
    if n < 10 {
        out[at] = b'0' + n as u8;
        return at + 1;
    }
    let p = put_digits(out, at, n / 10);
    out[p] = b'0' + (n % 10) as u8;
    p + 1
}

// How long the header is.
pub fn length(width: usize, height: usize) -> usize
    ensures { result ≡ length (written width height) }
{
    61 + digit_count(height) + digit_count(width)
}

// Stores the header from the start on, and answers its length.
pub fn write(width: usize, height: usize, out: &mut [u8]) -> usize
    requires { length (written width height) ≤ length out.old }
    ensures { (result ≡ length (written width height)) × (out.new ≡ spread 1 out.old 0 (written width height)) }
{
    let lines = b"#?RADIANCE\nSOFTWARE=zune-hdr\nFORMAT=32-bit_rle_rgbe\n\n-Y ";
    steps::put_bytes(lines, 0, out, 0, 56);
    let p = put_digits(out, 56, height);
    steps::put_bytes(b" +X ", 0, out, p, 4);
    let q = put_digits(out, p + 4, width);
    out[q] = b'\n';
    q + 1
}
