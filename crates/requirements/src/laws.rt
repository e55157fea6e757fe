//! What the first unmet requirement is, said by places. It is the contract of a function that does nothing.
ghost use Rattle.std.specs.Prelude.{List, ℕ, MatchOption};
ghost use Rattle.fw_facts.specs.declared.machine.MachineFacts.{MachineFacts};
ghost use Rattle.fw_facts.specs.declared.requirement.Requirement.{Requirement};
ghost use Rattle.fw_facts.specs.declared.view.DeviceView.{DeviceView};
ghost use Rattle.requirements.specs.Requirements.{AllHold, IsFirstUnmet, cause, first_unmet_of};

/// Where no requirement is named, all of the list hold; one that is named doesn't hold, for the cause
/// that is named, and each before it holds.
pub fn first_that_does_not_hold()
    ensures { (machine : MachineFacts) (features : List (List ℕ)) (views : List DeviceView) (view : DeviceView)
        (list : List Requirement) → MatchOption (first_unmet_of machine features views view list)
        (AllHold (cause machine features views view) list)
        (IsFirstUnmet (cause machine features views view) list) }
{}
