//! What is left of a remote.
ghost use Rattle.std.specs.Prelude.{◌≡◌, ◌≤◌, All, length};
ghost use Rattle.release_catalogue.specs.Components.{releases_in};

use fw_base::Listed;
use fw_facts::Component;
use std::marker::Model;

/// The components of a remote with the releases that stay, and what decides where they stand.
#[derive(Drop)]
pub struct Part {
    order: u32,
    enabled: bool,
    components: Listed<Component>,
}

impl Model for Part {
    ghost use Rattle.remote_set.specs.Pieces.{IsSmall, Piece};

    ghost Value = { Piece };

    ghost view = { λ part. record { order = part.order; enabled = part.enabled; components = part.components } };

    ghost invariant = { λ part. IsSmall part.components };
}

impl Part {
    /// The part with these components, which a catalogue can have.
    pub fn of(order: u32, enabled: bool, components: Vec<Component>) -> Part
        requires few { length components.items ≤ 4096 }
        requires few_releases { releases_in components.items ≤ 20000 }
        requires few_requirements { All (λ c. length c.requirements ≤ 64) components.items }
        ensures { result ≡ record { order = order; enabled = enabled; components = components.items } }
    {
        Part {
            order,
            enabled,
            components: Listed::of(components),
        }
    }

    /// The order of its remote.
    pub fn order(&self) -> u32
        ensures { result ≡ self.now.order }
    {
        self.order
    }

    /// Whether its remote is enabled.
    pub fn is_enabled(&self) -> bool
        ensures { result ≡ self.now.enabled }
    {
        self.enabled
    }

    /// Its components.
    pub fn components(&self) -> &[Component]
        ensures value { result.now ≡ self.now.components }
        ensures few { length self.now.components ≤ 4096 }
        ensures few_releases { releases_in self.now.components ≤ 20000 }
        ensures few_requirements { All (λ c. length c.requirements ≤ 64) self.now.components }
    {
        self.components.items()
    }

    /// The same, moved out.
    pub fn into_components(self) -> Vec<Component>
        ensures value { result.items ≡ self.components }
        ensures few { length self.components ≤ 4096 }
        ensures few_releases { releases_in self.components ≤ 20000 }
        ensures few_requirements { All (λ c. length c.requirements ≤ 64) self.components }
    {
        let Part {
            order: _,
            enabled: _,
            components,
        } = self;
        components.into_items()
    }
}
