//! The place of a release.

/// A release by its places: that of its component in the catalogue, and its own in the component's
/// list, each from 0.
#[derive(Clone, Copy, Debug, PartialEq, Eq)]
pub struct ReleaseRef {
    pub component: u32,
    pub release: u32,
}
