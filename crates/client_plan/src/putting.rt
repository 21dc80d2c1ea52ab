// A value in place of another, which is let go here, where no clause speaks of what it stood in.
ghost use Rattle.std.specs.Prelude.{◌≡◌};

/// Puts the value in place of the one that is there.
pub fn put<T: Drop>(place: &mut T, value: T)
    ensures { place.new ≡ value }
{
    *place = value;
}
