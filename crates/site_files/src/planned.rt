//! The planned faults of a board. All that is wrong with them is told of their list.
ghost use Rattle.std.specs.Prelude.{◌≡◌, [], find};
ghost use Rattle.std.specs.Str.{bytes_eq};
ghost use Rattle.json_values.specs.Trees.{view, items_view};
ghost use Rattle.release_catalogue.specs.declared.spot.Level.TheVariants.{Whole};
ghost use Rattle.release_catalogue.specs.Reading.{Gives, each, entry_spot, optional};
ghost use Rattle.release_catalogue.specs.Kinds.{number_at};
ghost use Rattle.site_scripts.specs.Places.{the_here};
ghost use Rattle.site_files.specs.Plans.{board_fault_at, fault_word, last_call, plan_at, planned_at};

use emulated_boards::{BoardFault, PlannedFault};
use fw_base::Listed;
use json_values::Value;
use release_catalogue::entries::count;
use release_catalogue::kinds::{items, number, object, text};
use release_catalogue::members::member;
use release_catalogue::spot::fault_at;
use release_catalogue::{ReadStop, Reason, Spot, Word};
use site_scripts::needed_here;
use std::alloc::Global;

/// The most planned faults of a board.
pub const FAULTS_MAX: usize = 64;

/// The plan of the board, or none where the field is missing.
pub fn plan_or_none(
    alloc: Global,
    value: &Value,
    spot: Spot,
) -> Result<Listed<PlannedFault>, ReadStop>
    ensures { Gives (λ l. l) result (optional spot Word.Faults plan_at [] (view value.now)) }
{
    match member(value, Word::Faults) {
        None => Ok(Listed::of(Vec::new(alloc))),
        Some(found) => plan(alloc, found, spot.field(Word::Faults)),
    }
}

/// A plan of up to 64 faults.
pub fn plan(alloc: Global, value: &Value, spot: Spot) -> Result<Listed<PlannedFault>, ReadStop>
    ensures { Gives (λ l. l) result (plan_at spot (view value.now)) }
{
    let values = items(value, spot)?;
    if FAULTS_MAX < count(values) {
        return Err(fault_at(spot, Reason::TooMany));
    }
    let read = each_planned(alloc, values, spot)?;
    Ok(Listed::of(read))
}

#[tactic(auto, using(crate::proofs::Loop::latest_pushed))]
fn each_planned(alloc: Global, values: &[Value], spot: Spot) -> Result<Vec<PlannedFault>, ReadStop>
    ensures { Gives (λ v. v.items) result (each (λ earlier. planned_at (last_call earlier)) (entry_spot spot Whole) [] (items_view values.now)) }
{
    let mut read = Vec::new(alloc);
    let mut last = 0;
    for value in values {
        let next = next_planned(value, spot, read.as_slice(), last)?;
        last = next.call;
        read.push(next)?;
    }
    Ok(read)
}

/// A planned fault behind some others, of which the last has this call.
fn next_planned(
    value: &Value,
    spot: Spot,
    earlier: &[PlannedFault],
    last: u32,
) -> Result<PlannedFault, ReadStop>
    requires { last ≡ last_call earlier.now }
    ensures { Gives (λ p. p) result (planned_at (last_call earlier.now) spot (view value.now)) }
{
    planned(value, spot, last)
}

/// A planned fault, whose call comes behind the last one.
#[tactic(auto, unfolding(crate::specs::Plans::planned_at))]
pub fn planned(value: &Value, spot: Spot, last: u32) -> Result<PlannedFault, ReadStop>
    ensures { Gives (λ p. p) result (planned_at last spot (view value.now)) }
{
    object(value, spot)?;
    let call = call(value, spot)?;
    if call <= last {
        return Err(fault_at(spot, Reason::Repeated));
    }
    let fault = board_fault(needed_here(value, spot, Word::Fault)?, spot)?;
    Ok(PlannedFault { call, fault })
}

fn call(value: &Value, spot: Spot) -> Result<u32, ReadStop>
    ensures { Gives (λ c. c) result (the_here spot Word.Call (number_at 1 4294967295) (view value.now)) }
{
    let found = needed_here(value, spot, Word::Call)?;
    Ok(number(found, spot, 1, u64::from(u32::MAX))? as u32)
}

/// A fault, by its word, else `WrongKind`.
pub fn board_fault(value: &Value, spot: Spot) -> Result<BoardFault, ReadStop>
    ensures { Gives (λ f. f) result (board_fault_at spot (view value.now)) }
{
    let text = text(value, spot)?;
    match fault_among(&FAULTS, text.as_bytes()) {
        None => Err(fault_at(spot, Reason::WrongKind)),
        Some(fault) => Ok(fault),
    }
}

/// The faults of a board.
const FAULTS: [BoardFault; 4] = [
    BoardFault::Failed,
    BoardFault::Torn,
    BoardFault::Gone,
    BoardFault::Stranger,
];

fn fault_among(all: &[BoardFault], word: &[u8]) -> Option<BoardFault>
    ensures { result ≡ find (λ fault. bytes_eq (fault_word fault) word.now) all.now }
{
    all.iter().copied().find(|fault| fault_word(*fault) == word)
}

fn fault_word(fault: BoardFault) -> &'static [u8]
    ensures { result.now ≡ fault_word fault }
{
    match fault {
        BoardFault::Failed => b"failed",
        BoardFault::Torn => b"torn",
        BoardFault::Gone => b"gone",
        BoardFault::Stranger => b"stranger",
    }
}
