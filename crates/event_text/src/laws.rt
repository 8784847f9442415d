//! Laws of event files.

ghost use Rattle.std.specs.Prelude.{◌≡◌, ℕ, ◌≤◌, List, [], ◌++◌, length, Option, Some, None, false};
ghost use Rattle.std.specs.Io.KnownBytes.{Consumes, IsAtEnd};
ghost use Rattle.event_text.specs.Pieces.{FindsFault, HasRead, IsNew, Reading, TakesEnd, TakesLine, events_in};
ghost use Rattle.event_text.specs.declared.lines.Line.{Line};
ghost use Rattle.input_lines.specs.declared.fault.InputFault.{InputFault};
ghost use Rattle.event_text.specs.Input.{contents_of};
ghost use Rattle.ha_base.specs.declared.outside.Moment.{Moment};
ghost use Rattle.events.specs.Events.{PlainEvent};
ghost use Rattle.event_text.specs.EventFile.{EventText};

/// What an input says is told by as many of its octets as a file may have, and one more: whatever
/// follows them.
#[tactic(auto, using(crate::proofs::FrontLaws::contents_front))]
pub fn front_tells_contents()
    ensures { (front more : List ℕ) → 67108865 ≤ length front
        → contents_of (front ++ more) ≡ contents_of front }
{}

/// An input without a fault is the text of the events that are read of it, and a text of events is
/// read as these events.
pub fn inputs_are_texts()
    ensures found { (octets : List ℕ) → (contents_of octets).fault ≡ None
        → EventText (contents_of octets).events octets }
    ensures only { (events : List (Moment × PlainEvent)) (octets : List ℕ) → EventText events octets
        → contents_of octets ≡ record { events = events; fault = None } }
{}

/// An event file that comes in pieces says what it says whole: from the first line on, the events of
/// the lines that were taken, up to the end of the file or its first fault.
#[tactic(auto, using(crate::proofs::WholeReads::none_read, crate::proofs::WholeReads::all_read))]
pub fn pieces_tell_contents()
    ensures begins { (reading : Reading) (left : Option (List ℕ)) → IsNew reading
        → HasRead reading left left [] }
    ensures goes_on { (old new : Reading) (left mid now : Option (List ℕ))
        (events : List (Moment × PlainEvent)) (said : Line) → HasRead old left mid events
        → TakesLine old new mid now said → HasRead new left now (events ++ events_in said) }
    ensures ends { (old new : Reading) (left mid now : Option (List ℕ))
        (events : List (Moment × PlainEvent)) → HasRead old left mid events
        → TakesEnd old new mid now → (input : List ℕ) × Consumes left now input × IsAtEnd now
        × (contents_of input ≡ record { events = events; fault = None }) }
    ensures faults { (old : Reading) (left mid now : Option (List ℕ))
        (events : List (Moment × PlainEvent)) (found : InputFault) → old.unfed ≡ false
        → HasRead old left mid events → FindsFault old mid now found
        → (input : List ℕ) × Consumes left now input
        × ((more : List ℕ) → (IsAtEnd now → more ≡ [])
        → contents_of (input ++ more) ≡ record { events = events; fault = Some found }) }
{}
