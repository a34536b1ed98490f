//! What callers need of look-ups, as contracts of functions that do nothing.
ghost use Rattle.std.specs.Prelude.{◌≡◌, ℕ, List, None, [], ◌∷◌, ◌++◌, length, position};
ghost use Rattle.share_index.specs.Entries.{IsUpdate};
ghost use Rattle.share_index.specs.Listings.{FindsPlaces};

use memory::Hashed;

/// A map that finds the members of a list at their places does so still once the list has one more
/// member, and the map has the length of the list at that member.
pub fn next_place<K: Hashed>()
    ensures { (old new : List (K × ℕ)) (xs : List K) (k : K)
        → FindsPlaces K.same old xs → position (K.same k) xs ≡ None → IsUpdate K.same old new k (length xs)
        → FindsPlaces K.same new (xs ++ k ∷ []) }
{}
