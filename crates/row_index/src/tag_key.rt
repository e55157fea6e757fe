//! Tags as keys.
ghost use Rattle.std.specs.Prelude.{◌≡◌};

use fw_base::Name;
use std::hash::{Hash, Hasher};
use std::marker::Model;

/// A tag that hashes as its bytes do. Contracts see the list of its bytes.
#[derive(Drop)]
pub struct TagKey {
    tag: Name,
}

impl Model for TagKey {
    ghost use Rattle.std.specs.Prelude.{List, ℕ};

    ghost Value = { List ℕ };

    ghost view = { λ k. k.tag };
}

impl TagKey {
    /// The key of a tag.
    pub fn of(tag: Name) -> TagKey
        ensures { result ≡ tag }
    {
        TagKey { tag }
    }
}

impl PartialEq for TagKey {
    ghost use Rattle.std.specs.Str.{bytes_eq};
    ghost use Rattle.std.proofs.Common.{rules};
    ghost use Rattle.std.specs.Cmp.Rules.{comparing};

    ghost eq = { bytes_eq };

    ghost laws = { Prim.search (comparing, rules) };

    fn eq(&self, other: &TagKey) -> bool {
        self.tag == other.tag
    }
}

impl Eq for TagKey {
    ghost use Rattle.std.proofs.Common.{rules};
    ghost use Rattle.std.specs.Cmp.Rules.{comparing};

    ghost laws = { Prim.search (comparing, rules) };
}

impl Hash for TagKey {
    ghost use Rattle.std.specs.Hash as fed;
    ghost use Rattle.std.proofs.Common.{rules};
    ghost use Rattle.std.specs.Cmp.Rules.{hashing};

    ghost hash_input = { λ k. fed.slice fed.u8 k };

    ghost respects_eq = { Prim.search (hashing, rules) };

    fn hash<H: Hasher>(&self, state: &mut H) {
        self.tag.bytes().hash(state);
    }
}
