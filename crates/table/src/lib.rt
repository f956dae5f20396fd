// A field of a table that is a number: a tab, and its decimal digits.
#![tactic(auto)]

ghost use Rattle.std.specs.Prelude.{◌≡◌, ◌+◌, ◌≤◌, length};
ghost use Rattle.steps.specs.Place.{spread};
ghost use Rattle.table.specs.Table.{field_of};

// Stores a field from `at` on, and answers the place after it.
#[tactic(auto, using(header::proofs::Laws::Written::digits_few, crate::proofs::Laws::Table::field_room, crate::proofs::Laws::Table::field_stored))]
pub fn put_field(out: &mut [u8], at: usize, n: usize) -> usize
    requires { at + 21 ≤ length out.old }
    ensures value { (result ≡ at + length (field_of n)) × (out.new ≡ spread 1 out.old at (field_of n)) }
    ensures upper_bound { result ≤ at + 21 }
{
    out[at] = b'\t';
    header::put_digits(out, at + 1, n)
}
