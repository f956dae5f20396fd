// Buffers as they are lent: place i holds i mod 251.
ghost use Rattle.std.specs.Prelude.{ℕ, ◌%◌, ◌<◌, length, get_or};

// The value of its number to each place.
pub fn fill<T: Copy + From<u8>>(values: &mut [T])
    ensures { (i : ℕ) (d : _) → i < length values.old → T.from_gives (i % 251) (get_or values.new i d) }
{
    for (i, value) in values.iter_mut().enumerate() {
        *value = T::from((i % 251) as u8);
    }
}
