//! What a boot is played with.
use client_scripts::Item;
use fw_base::Listed;
use plugin_trait::Plugin;
use std::alloc::Global;

/// What a boot is played with: what its clients wait by, their scripts, that of client 1 first, the plugins, and the
/// gate that is told of each step.
#[derive(Drop)]
pub(crate) struct Stage<'a, R, G> {
    pub rt: &'a R,
    pub alloc: Global,
    pub of_boot: &'a [Listed<Item>],
    pub plugins: &'a [Box<dyn Plugin>],
    pub gate: &'a G,
}
