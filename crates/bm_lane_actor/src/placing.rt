//! Putting a value in the place of another one.

ghost use Rattle.std.specs.Prelude.{◌≡◌};

/// Puts a value in the place of another one, which is dropped. It is generic: else the proof of
/// each such assignment would take that one apart.
pub(crate) fn put<T: Drop>(place: &mut T, value: T)
    ensures { place.new ≡ value }
{
    *place = value;
}
