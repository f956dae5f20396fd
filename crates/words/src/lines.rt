// Lines: up to a byte, the first line, the further lines.
ghost use Rattle.std.specs.Prelude.{◌≡◌, ◌≤◌, length};
ghost use Rattle.words.specs.Lines.{past, same, is_first, lines_end};

// The place after the first byte b from `at` on, or the end of the bytes.
#[tactic(auto, using(crate::proofs::Laws::Lines::past_found, crate::proofs::Laws::Lines::past_missing))]
pub fn past(bytes: &[u8], at: usize, b: u8) -> usize
    requires { at ≤ length bytes.now }
    ensures value { result ≡ past b bytes.now at }
    ensures lower_bound { (at ≤ result) × (result ≤ length bytes.now) }
{
    match bytes[at..].iter().position(|x| *x == b) {
        Some(before) => at + before + 1,
        None => bytes.len(),
    }
}

// Whether two byte strings are the same: `==`, by the word that the definitions of fields and lines have for it.
#[tactic(auto, using(crate::proofs::Laws::Lines::same_bytes))]
pub fn same(a: &[u8], b: &[u8]) -> bool
    ensures { result ≡ same a.now b.now }
{
    a == b
}

// Whether a line is one that a file may start with.
#[tactic(auto, unfolding(crate::specs::Lines::is_first))]
pub fn is_first(line: &[u8]) -> bool
    ensures { result ≡ is_first line.now }
{
    same(line, b"#?RADIANCE\n") || same(line, b"#?RGBE\n")
}

// The place after the further lines, which start at `at`. A `while`, since each turn goes on at the next line, as `line_turn` of the specs does.
pub fn lines_end(bytes: &[u8], at: usize) -> usize
    requires { at ≤ length bytes.now }
    ensures value { result ≡ lines_end bytes.now at }
    ensures upper_bound { result ≤ length bytes.now }
{
    let mut p = at;
    while p < bytes.len() {
        if bytes[p] == b'\n' {
            return p + 1;
        }
        p = past(bytes, p, b'\n');
    }
    p
}
