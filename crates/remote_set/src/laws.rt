//! Laws of merging. Each is the contract of a function that does nothing.
ghost use Rattle.std.specs.Prelude.{◌≡◌, ◌≤◌, ◌∷◌, [], List, length, sum_by, true};
ghost use Rattle.release_catalogue.specs.Components.{releases_in};
ghost use Rattle.remote_set.specs.declared.remote.Remote.{Remote};
ghost use Rattle.remote_set.specs.Merged.{merged};
ghost use Rattle.remote_set.specs.Finds.{FindsFirst, FindsUnhidden};
ghost use Rattle.remote_set.specs.Firsts.{FirstWins};

/// An enabled remote alone is merged as it is.
pub fn merged_alone()
    ensures { (remote : Remote) → remote.enabled ≡ true → merged (remote ∷ []) ≡ remote.catalogue }
{}

/// No more is merged than the remotes have.
pub fn no_more_is_merged()
    ensures components { (remotes : List Remote) → length (merged remotes) ≤ sum_by (λ remote. length remote.catalogue) remotes }
    ensures releases { (remotes : List Remote) → releases_in (merged remotes) ≤ sum_by (λ remote. releases_in remote.catalogue) remotes }
{}

/// Of each ID and version the merged catalogue has what the first enabled remote has that offers it, and
/// nothing else.
pub fn first_remote_wins()
    ensures { FirstWins }
{}

/// A look-up in the merged catalogue finds what the first enabled remote has of it that no enabled remote
/// before it offers.
pub fn finds_unhidden()
    ensures { FindsUnhidden }
{}

/// A look-up in the merged catalogue finds what it finds in the first enabled remote where it finds anything,
/// if IDs tell which components are for the device.
pub fn finds_first()
    ensures { FindsFirst }
{}
