//! Laws of inputs.

ghost use Rattle.ha_base.specs.declared.limits.TheConstants.{INPUT_OCTETS};
ghost use Rattle.std.specs.Prelude.{◌≡◌, ◌≤◌, ◌<◌, ℕ, List, ◌++◌, length, None};
ghost use Rattle.show_messages.specs.Messages.{messages_of};

/// What an input holds is told by as many of its octets as an input may have, and one more:
/// whatever follows them.
#[tactic(auto, using(crate::proofs::FrontLaws::messages_front))]
pub fn front_tells_messages()
    ensures { (front more : List ℕ) → INPUT_OCTETS < length front
        → messages_of (front ++ more) ≡ messages_of front }
{}

/// An input without a fault has no more octets than one may have.
#[tactic(auto, using(crate::proofs::FrontLaws::messages_short))]
pub fn inputs_without_fault_are_short()
    ensures { (input : List ℕ) → (messages_of input).fault ≡ None
        → length input ≤ INPUT_OCTETS }
{}
