//! What a release is known by when remotes are merged.
ghost use Rattle.std.specs.Prelude.{◌≡◌};

use fw_base::Name;
use std::cmp::Ordering;
use version_formats::{Version, compare};

/// A release of a component, by the component's ID and the release's version. Versions that are equal, as
/// `01.0` and `1.0`, are the same release.
#[derive(Clone, Copy, Debug)]
pub struct ReleaseKey {
    pub id: Name,
    pub version: Version,
}

impl PartialEq for ReleaseKey {
    ghost use Rattle.std.specs.Ordering.{eq_by_cmp};
    ghost use Rattle.std.specs.Cmp.{eq_by_cmp_equiv, partial_equiv_from_equiv};
    ghost use Rattle.remote_set.specs.Keys.{key_cmp, key_cmp_total};

    ghost eq = { eq_by_cmp key_cmp };

    ghost laws = { partial_equiv_from_equiv (eq_by_cmp_equiv key_cmp_total) };

    fn eq(&self, other: &ReleaseKey) -> bool {
        match self.cmp(other) {
            Ordering::Equal => true,
            Ordering::Less | Ordering::Greater => false,
        }
    }
}

impl Eq for ReleaseKey {
    ghost use Rattle.std.specs.Cmp.{eq_by_cmp_equiv};
    ghost use Rattle.remote_set.specs.Keys.{key_cmp_total};

    ghost laws = { eq_by_cmp_equiv key_cmp_total };
}

impl PartialOrd for ReleaseKey {
    ghost use Rattle.std.specs.Ordering.{as_partial_cmp};
    ghost use Rattle.std.specs.Cmp.{partial_order_from_total};
    ghost use Rattle.remote_set.specs.Keys.{key_cmp, key_cmp_total};

    ghost partial_cmp = { as_partial_cmp key_cmp };

    ghost laws = { partial_order_from_total key_cmp_total };

    fn partial_cmp(&self, other: &ReleaseKey) -> Option<Ordering> {
        Some(self.cmp(other))
    }
}

impl Ord for ReleaseKey {
    ghost use Rattle.std.specs.Prelude.{refl};
    ghost use Rattle.remote_set.specs.Keys.{key_cmp, key_cmp_total};

    ghost cmp = { key_cmp };

    ghost total = { key_cmp_total };

    ghost matches_partial_cmp = { λ x y. refl };

    ghost matches_eq = { λ x y. refl };

    fn cmp(&self, other: &ReleaseKey) -> Ordering {
        match self.id.bytes().cmp(other.id.bytes()) {
            Ordering::Equal => compare(&self.version, &other.version),
            Ordering::Less => Ordering::Less,
            Ordering::Greater => Ordering::Greater,
        }
    }
}
