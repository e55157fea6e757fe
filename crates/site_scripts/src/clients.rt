//! The clients of the document.
ghost use Rattle.std.specs.Prelude.{◌≡◌, ◌≤◌, [], IfOk, length};
ghost use Rattle.json_values.specs.Trees.{view, items_view};
ghost use Rattle.release_catalogue.specs.declared.spot.Level.TheVariants.{First};
ghost use Rattle.release_catalogue.specs.declared.word.Word.TheVariants as words;
ghost use Rattle.release_catalogue.specs.Reading.{Gives, each, entry_spot};
ghost use Rattle.site_scripts.specs.Clients.{client_at, clients_at};
ghost use Rattle.site_scripts.specs.Places.{spot_in};

use crate::spots::spot_in;
use fw_base::{Listed, Name};
use json_values::Value;
use release_catalogue::entries::{count, list_or_empty};
use release_catalogue::kinds::{items, object};
use release_catalogue::spot::fault_at;
use release_catalogue::{Level, ReadStop, Reason, Spot, Word};
use std::alloc::Global;

/// The most clients of a document.
pub const CLIENTS_MAX: usize = 16;

/// The most features of a client.
pub const FEATURES_MAX: usize = 64;

/// The features of up to 16 clients.
pub fn read_clients(alloc: Global, value: &Value, spot: Spot) -> Result<Vec<Listed<Name>>, ReadStop>
    ensures read { Gives (λ v. v.items) result (clients_at spot (view value.now)) }
    ensures few { IfOk result (λ v. length v.items ≤ 16) }
{
    let values = items(value, spot)?;
    if CLIENTS_MAX < count(values) {
        return Err(fault_at(spot, Reason::TooMany));
    }
    each_client(alloc, values)
}

fn each_client(alloc: Global, values: &[Value]) -> Result<Vec<Listed<Name>>, ReadStop>
    requires { length values.now ≤ 16 }
    ensures read { Gives (λ v. v.items) result (each (λ _. client_at) (entry_spot (spot_in words.Clients words.Entry) First) [] (items_view values.now)) }
    ensures few { IfOk result (λ v. length v.items ≤ 16) }
{
    let base = spot_in(Word::Clients, Word::Entry);
    let mut read = Vec::new(alloc);
    for (i, value) in values.iter().enumerate() {
        let features = client(alloc, value, base.entry(Level::First, i as u32))?;
        read.push(features)?;
    }
    Ok(read)
}

/// The features of a client.
#[tactic(auto, unfolding(crate::specs::Clients::client_at))]
pub fn client(alloc: Global, value: &Value, spot: Spot) -> Result<Listed<Name>, ReadStop>
    ensures { Gives (λ l. l) result (client_at spot (view value.now)) }
{
    object(value, spot)?;
    let features = list_or_empty(alloc, value, spot, Word::Features, FEATURES_MAX)?;
    Ok(Listed::of(features))
}
