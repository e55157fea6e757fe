//! The ports of the boards that were read.
ghost use Rattle.std.specs.Prelude.{◌≡◌, ◌<◌, ◌++◌, ◌∷◌, [], OnOk, IfSome, false, length, position};
ghost use Rattle.std.specs.List.{list_any};
ghost use Rattle.std.specs.Str.{bytes_eq};

use fw_base::NoMemory;
use indexmap::IndexSet;
use std::alloc::Global;
use std::marker::Model;

/// Ports, each once, found by a hash. Contracts see their list, in the order in which they came.
#[derive(Drop)]
pub struct Ports<'v> {
    names: IndexSet<&'v [u8]>,
}

impl<'v> Model for Ports<'v> {
    ghost use Rattle.std.specs.Prelude.{List, ℕ, map};

    ghost Value = { List (List ℕ) };

    ghost view = { λ ports. map (λ name. name.now) ports.names.keys };
}

impl<'v> Ports<'v> {
    /// No port. Takes no memory.
    pub fn new(alloc: Global) -> Ports<'v>
        ensures { result ≡ [] }
    {
        Ports {
            names: IndexSet::new(alloc),
        }
    }

    /// Whether the port is there.
    #[tactic(auto, using(crate::proofs::References::any_text))]
    pub fn has(&self, port: &[u8]) -> bool
        ensures { result ≡ list_any (bytes_eq port.now) self.now }
    {
        self.names.contains(port)
    }

    /// The place of a port, from 0.
    #[tactic(auto, using(crate::proofs::References::place_of_text))]
    pub fn place(&self, port: &[u8]) -> Option<usize>
        ensures found { result ≡ position (bytes_eq port.now) self.now }
        ensures within { IfSome result (λ at. at < length self.now) }
    {
        self.names.get_index_of(port)
    }

    /// Puts a new port behind the others.
    #[tactic(auto, using(crate::proofs::References::added_text))]
    pub fn add(&mut self, port: &'v [u8]) -> Result<(), NoMemory>
        requires { list_any (bytes_eq port.now) self.old ≡ false }
        ensures { OnOk result (self.new ≡ self.old ++ port.now ∷ []) }
    {
        self.names.insert(port)?;
        Ok(())
    }
}
