//! What the fault of an event file means.

ghost use Rattle.std.specs.Prelude.{◌≡◌, ℕ, List, Some};
ghost use Rattle.input_lines.specs.declared.fault.InputFault.{InputFault};
ghost use Rattle.event_text.specs.Input.{contents_of};
ghost use Rattle.event_laws.specs.Fronts.{StandBefore};

/// What stands before a fault: whole lines, which are the text of the events before it. The line
/// behind them is the one at fault.
#[tactic(auto, using(crate::proofs::FrontLaws::stand_before))]
pub fn events_before_faults()
    ensures { (input : List ℕ) (fault : InputFault) → (contents_of input).fault ≡ Some fault
        → StandBefore (contents_of input).events fault.line input }
{}
