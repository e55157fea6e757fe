//! Laws of the order of versions. Each is the contract of a function that does nothing.
ghost use Rattle.std.specs.Prelude.{◌≡◌, ◌↔◌, ℕ, List, true};
ghost use Rattle.std.specs.Ordering.{is_le, ordering_reverse};
ghost use Rattle.version_formats.specs.Formats.{render};
ghost use Rattle.version_formats.specs.VersionOrder.{version_cmp, sections};

use crate::Format;
use std::cmp::Ordering;

/// The order is reflexive, total and transitive, and two texts are equal in it exactly where their
/// sections are.
pub fn order_of_versions()
    ensures reflexive { (a : List ℕ) → version_cmp a a ≡ Ordering.Equal }
    ensures total { (a b : List ℕ) → version_cmp b a ≡ ordering_reverse (version_cmp a b) }
    ensures transitive { (a b c : List ℕ) → is_le (version_cmp a b) ≡ true → is_le (version_cmp b c) ≡ true → is_le (version_cmp a c) ≡ true }
    ensures equal_sections { (a b : List ℕ) → (version_cmp a b ≡ Ordering.Equal) ↔ (sections a ≡ sections b) }
{}

/// Two raw numbers whose texts under one format are equal as versions have the same text.
pub fn equal_texts(format: Format, left: u32, right: u32)
    requires { version_cmp (render format left) (render format right) ≡ Ordering.Equal }
    ensures { render format left ≡ render format right }
{
    let _ = (format, left, right);
}
