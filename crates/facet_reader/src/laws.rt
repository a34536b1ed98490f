//! What the derived comparison of names means.
ghost use Rattle.std.specs.Prelude.{◌≡◌, ◌↔◌, IsTrue};

use crate::Name;

/// Two names are equal exactly where their bytes are.
pub fn equality(one: &Name, other: &Name) -> bool
    ensures { IsTrue result ↔ (one.now ≡ other.now) }
{
    one == other
}
