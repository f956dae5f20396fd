// A name as it is shown: a byte on which a terminal acts is a question mark.
#![tactic(auto)]

ghost use Rattle.std.specs.Prelude.{◌≡◌, ◌≤◌, length};
ghost use Rattle.steps.specs.Place.{spread};
ghost use Rattle.plain.specs.Plain.{acts, shown, plain_from};

// Whether a terminal acts on a byte, which stands behind another.
#[tactic(auto, unfolding(crate::specs::Plain::acts))]
fn acts(before: u8, x: u8) -> bool
    ensures { result ≡ acts before x }
{
    x < 32 || x == 127 || before == 194 && x < 160
}

// A byte as it is shown.
#[tactic(auto, unfolding(crate::specs::Plain::shown))]
fn shown(before: u8, x: u8) -> u8
    ensures { result ≡ shown before x }
{
    if acts(before, x) { b'?' } else { x }
}

// Stores a name as it is shown.
pub fn put(name: &[u8], out: &mut [u8])
    requires { length name.now ≤ length out.old }
    ensures { out.new ≡ spread 1 out.old 0 (plain_from name.now 0 0 (length name.now)) }
{
    let mut before = 0;
    for (i, &x) in name.iter().enumerate() {
        out[i] = shown(before, x);
        before = x;
    }
}
