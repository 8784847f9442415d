//! What reading means, as laws over values and lists of octets.

ghost use Rattle.std.specs.Prelude.{◌≡◌, ℕ, ◌+◌, ◌⊎◌, Bool, List};
ghost use Rattle.ike_values.specs.Values.{PayloadValue};
ghost use Rattle.ike_values.specs.Chains.{Spells};
ghost use Rattle.ike_values.specs.Headers.{IsMessage};
ghost use Rattle.ike_values.specs.declared.header.Message.{Message};
ghost use Rattle.ike_values.specs.declared.fault.Reason.{Reason};
ghost use Rattle.ike_grammar.specs.Chain.{Refused};
ghost use Rattle.ike_grammar.specs.Messages.{MessageRefused};
ghost use Rattle.ike_grammar.specs.OctetRange.{IsOctets};
ghost use Rattle.ike_grammar.specs.Places.{IsFirstFault, IsFaultOfMessage, fixed_len, BeginAlike};

/// Octets spell one list of payloads, or are refused at one place for one reason, and never both.
pub fn one_reading()
    ensures some { (first : ℕ) (inner : Bool) (bytes : List ℕ) → IsOctets bytes →
        ((payloads : List PayloadValue) × Spells payloads first inner bytes)
        ⊎ ((place : ℕ) × (reason : Reason) × Refused first inner bytes place reason) }
    ensures one_value { (first : ℕ) (inner : Bool) (bytes : List ℕ)
        (payloads others : List PayloadValue) → Spells payloads first inner bytes
        → Spells others first inner bytes → payloads ≡ others }
    ensures one_fault { (first : ℕ) (inner : Bool) (bytes : List ℕ) (place place' : ℕ)
        (reason reason' : Reason) → Refused first inner bytes place reason
        → Refused first inner bytes place' reason' → (place ≡ place') × (reason ≡ reason') }
    ensures not_both { (first : ℕ) (inner : Bool) (bytes : List ℕ) (payloads : List PayloadValue)
        (place : ℕ) (reason : Reason) → Spells payloads first inner bytes
        → Refused first inner bytes place reason → ⊥ }
{}

/// What the place of a refusal means. Before the octets at fault stand whole payloads, as they are
/// spelled; no payload of the type that they lead to begins behind them, and the place lies among
/// the octets of that one, with what its reason says. And the place is as far as one has to look:
/// octets of the same length that are the same up to it, and eight octets on, are refused there too,
/// for the same reason, so that they spell nothing either.
pub fn first_fault()
    ensures before { (first : ℕ) (inner : Bool) (bytes : List ℕ) (place : ℕ) (reason : Reason) →
        IsOctets bytes → Refused first inner bytes place reason →
        IsFirstFault first inner bytes place reason }
    ensures behind { (first : ℕ) (inner : Bool) (bytes others : List ℕ) (place : ℕ)
        (reason : Reason) → IsOctets bytes → Refused first inner bytes place reason →
        BeginAlike (place + fixed_len) bytes others → Refused first inner others place reason }
{}

/// Octets spell one message, or are refused at one place for one reason, and never both.
pub fn one_message()
    ensures some { (bytes : List ℕ) → IsOctets bytes →
        ((message : Message) × IsMessage message bytes)
        ⊎ ((place : ℕ) × (reason : Reason) × MessageRefused bytes place reason) }
    ensures one_value { (bytes : List ℕ) (message other : Message) → IsMessage message bytes →
        IsMessage other bytes → message ≡ other }
    ensures one_fault { (bytes : List ℕ) (place place' : ℕ) (reason reason' : Reason) →
        MessageRefused bytes place reason → MessageRefused bytes place' reason' →
        (place ≡ place') × (reason ≡ reason') }
    ensures not_both { (bytes : List ℕ) (message : Message) (place : ℕ) (reason : Reason) →
        IsMessage message bytes → MessageRefused bytes place reason → ⊥ }
{}

/// What the place of a refusal means in a whole message: its header is none, or it is, and the place
/// is that of the first fault of the chain behind it. And it is as far as one has to look, as in a
/// chain.
pub fn first_fault_of_message()
    ensures before { (bytes : List ℕ) (place : ℕ) (reason : Reason) → IsOctets bytes →
        MessageRefused bytes place reason → IsFaultOfMessage bytes place reason }
    ensures behind { (bytes others : List ℕ) (place : ℕ) (reason : Reason) → IsOctets bytes →
        MessageRefused bytes place reason → BeginAlike (place + fixed_len) bytes others →
        MessageRefused others place reason }
{}
