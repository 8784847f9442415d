ghost use Rattle.std.specs.Prelude.{◌≡◌, ◌↔◌, ◌≤◌, ◌+◌, ◌-◌, Some, None, IsSome, MatchOption, Contains, filter, max};
ghost use Rattle.ike_window.specs.declared.TheConstants.{LAST_ID, WINDOW};
ghost use Rattle.ike_window.specs.Kept.{AllBelow, message_ids_of, kept_octets};
ghost use Rattle.ike_window.specs.Requests.{IsRequestJudgedBy, IsLeastFree, IsNewRequest, IsRepeat};
ghost use Rattle.ike_window.specs.Stored.{no_responses, raised_to, with_response};
ghost use Rattle.ike_window.specs.Windows.{IsAnswered, Jumps, is_repeatable};

use crate::judged::Judged;
use crate::ring::Ring;
use crate::{ANSWERED, LAST_ID, WINDOW};
use ha_base::Octets;
use std::marker::Model;

/// The requests that an end answered, and the responses that may be asked for again (RFC 7296,
/// sections 2.1 to 2.3).
#[derive(Drop)]
pub struct Answering {
    floor: u32,
    low: u32,
    ring: Ring<ANSWERED>,
}

impl Model for Answering {
    ghost use Rattle.ike_window.specs.Windows.{IsWindow, ResponseWindow};

    ghost Value = { ResponseWindow };

    ghost view = { λ a. record { floor = a.floor; low = a.low; responses = a.ring.kept } };

    ghost invariant = { λ a. IsWindow a.floor a.low a.ring };
}

impl Answering {
    /// No response is stored, and no request below the floor is new.
    pub fn new(floor: u32) -> Answering
        ensures { result ≡ no_responses floor }
    {
        Answering {
            floor,
            low: floor,
            ring: Ring::of_two_windows(floor),
        }
    }

    /// The Message ID below which every request is old.
    pub fn floor(&self) -> u32
        ensures { result ≡ self.now.floor }
    {
        self.floor
    }

    /// The least Message ID from the floor on that was not answered.
    pub fn low(&self) -> u32
        ensures value { result ≡ self.now.low }
        ensures least { IsLeastFree self.now.floor (IsAnswered self.now) result }
    {
        self.low
    }

    /// What the window says of a request.
    pub fn judge(&self, id: u32) -> Judged
        ensures { IsRequestJudgedBy self.now.floor self.now.low (IsAnswered self.now) id result }
    {
        if self.ring.has(id) {
            Judged::Repeat
        } else if id < self.low {
            Judged::Old
        } else if id - self.low >= WINDOW || id == LAST_ID {
            Judged::Ahead
        } else {
            Judged::New
        }
    }

    /// Stores the response to a new request.
    pub fn store(&mut self, id: u32, response: Octets)
        requires { IsNewRequest self.old.low (IsAnswered self.old) id }
        ensures { self.new
            ≡ with_response (record { id = id; octets = response.octets }) self.old }
    {
        self.ring.insert(id, response);
        self.low = settle(&mut self.ring, self.floor, self.low);
    }

    /// The response to a request, to be sent again. None exactly where `judge` does not answer
    /// `Repeat`.
    pub fn stored(&self, id: u32) -> Option<&Octets>
        ensures octets { MatchOption result (kept_octets id self.now.responses ≡ None)
            (λ octets. kept_octets id self.now.responses ≡ Some octets.now.octets) }
        ensures repeat { IsSome result
            ↔ IsRepeat self.now.floor self.now.low (IsAnswered self.now) id }
    {
        self.ring.get(id)
    }

    /// Raises the floor to a Message ID, where it is above it, and drops the responses below.
    pub fn jump(&mut self, floor: u32)
        ensures jumps { Jumps floor self.old self.new }
        ensures raised { self.new ≡ raised_to floor self.old }
    {
        self.floor = self.floor.max(floor);
        self.low = settle(&mut self.ring, self.floor, self.low.max(floor));
    }
}

/// Drops the responses that cannot be asked for again, and gives the first Message ID from `from`
/// on without one.
fn settle(ring: &mut Ring<ANSWERED>, floor: u32, from: u32) -> u32
    requires ordered { floor ≤ from }
    requires below { AllBelow (from + WINDOW) ring.old.kept }
    requires below_the_end { AllBelow LAST_ID ring.old.kept }
    ensures low { IsLeastFree from (Contains (message_ids_of ring.old.kept)) result }
    ensures first { ring.new.first ≡ max floor (result - WINDOW) }
    ensures kept { ring.new.kept ≡ filter (is_repeatable floor result) ring.old.kept }
{
    let low = ring.first_free(from);
    ring.move_to(floor.max(low.saturating_sub(WINDOW)));
    low
}
