//! Turns that are kept small.

ghost use Rattle.std.specs.Prelude.{◌≡◌, ◌+◌, ◌≤◌, ◌++◌, [], length, vec_capacity, vec_len};
ghost use Rattle.std.specs.Option.{option_copied};

use events::{Datagram, Event, Seal, Served, Step, Turn, Verdict};
use ha_base::Moment;
use keeper_book::{Call, Calls};
use std::marker::Model;

/// A turn with no more memory for calls and seals than it has of them.
#[derive(Drop)]
pub(crate) struct KeptTurn {
    moment: Moment,
    event: Event,
    calls: Vec<Call>,
    verdict: Verdict,
    served: Option<Served>,
    seals: Vec<Seal>,
    gives: Option<Datagram>,
}

impl Model for KeptTurn {
    ghost use Rattle.events.specs.declared.turn.Turn.{Turn};

    ghost Value = { Turn };

    ghost view = { λ k. record {
      moment = k.moment;
      event = k.event;
      calls = k.calls.items;
      step = record { verdict = k.verdict; served = k.served; seals = k.seals.items; gives = k.gives };
    } };
}

impl KeptTurn {
    /// Keeps a turn, with its calls and its seals in this room. It takes no memory.
    pub fn new(turn: Turn, calls_room: Vec<Call>, seals_room: Vec<Seal>) -> KeptTurn
        requires no_calls { calls_room.items ≡ [] }
        requires room_for_calls { vec_len calls_room + length turn.calls ≤ vec_capacity calls_room }
        requires no_seals { seals_room.items ≡ [] }
        requires room_for_seals { vec_len seals_room
            + length turn.step.seals ≤ vec_capacity seals_room }
        ensures { result ≡ turn }
    {
        let Turn {
            moment,
            event,
            calls,
            step,
        } = turn;
        let Step {
            verdict,
            served,
            seals,
            gives,
        } = step;
        let mut kept_calls = calls_room;
        copy_calls(&calls, &mut kept_calls);
        let mut kept_seals = seals_room;
        seals.append_to(&mut kept_seals);
        KeptTurn {
            moment,
            event,
            calls: kept_calls,
            verdict,
            served,
            seals: kept_seals,
            gives,
        }
    }

    /// The datagram that the turn gave, if any.
    pub fn gives(&self) -> Option<&Datagram>
        ensures { option_copied result ≡ self.now.step.gives }
    {
        self.gives.as_ref()
    }
}

/// Appends calls, for which there is room.
fn copy_calls(calls: &Calls, kept: &mut Vec<Call>)
    requires { vec_len kept.old + length calls.now ≤ vec_capacity kept.old }
    ensures { kept.new.items ≡ kept.old.items ++ calls.now }
{
    for at in 0..calls.len() {
        let Some(call) = calls.get(at) else { return };
        kept.push_reserved(call.copied());
    }
}
