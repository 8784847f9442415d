ghost use Rattle.std.specs.Prelude.{◌≡◌, ◌==◌, ◌+◌, ◌≤◌, ◌↔◌, Contains, Some, None, [], ◌∷◌, ◌++◌, IfErr, IsTrue, MatchOption, OnOk, filter, not};
ghost use Rattle.std.specs.List.Sorted.{IsStrictlyIncreasing};
ghost use Rattle.ike_window.specs.declared.TheConstants.{WINDOW};
ghost use Rattle.ike_window.specs.Asking.{FitsBeside, IsLeast};
ghost use Rattle.ike_window.specs.Kept.{AllBelow, message_ids_of, kept_octets};

use crate::ring::Ring;
use crate::{ASKED, WINDOW};
use ha_base::{NumberList, Octets};
use std::marker::Model;

/// The requests of an end that wait for their responses, at most eight at once (RFC 7296, sections
/// 2.1 and 2.3).
#[derive(Drop)]
pub struct Asking {
    ring: Ring<ASKED>,
}

impl Model for Asking {
    ghost use Rattle.std.specs.Prelude.{List};
    ghost use Rattle.ike_window.specs.Asking.{IsAscending};
    ghost use Rattle.ike_window.specs.Kept.{KeptMessage};

    ghost Value = { List KeptMessage };

    ghost view = { λ asking. asking.ring.kept };

    ghost invariant = { λ asking. IsAscending asking.ring };
}

impl Asking {
    /// No request is outstanding.
    pub fn new() -> Asking
        ensures { result ≡ [] }
    {
        Asking {
            ring: Ring::of_one_window(),
        }
    }

    /// Whether a request of this Message ID fits the window. An error is the least that is
    /// outstanding, and comes exactly where that is a window or more below it.
    pub fn may_ask(&self, id: u32) -> Result<(), u32>
        ensures ok { OnOk result (FitsBeside id self.now) }
        ensures full { IfErr result
            (λ least. IsLeast (message_ids_of self.now) least × (least + WINDOW ≤ id)) }
    {
        match self.ring.ids().as_slice().first() {
            Some(least) if id.saturating_sub(*least) >= WINDOW => Err(*least),
            _ => Ok(()),
        }
    }

    /// Keeps a request, whose Message ID is above all the others, as outstanding.
    pub fn put(&mut self, id: u32, message: Octets)
        requires fits { FitsBeside id self.old }
        requires above { AllBelow id self.old }
        ensures { self.new ≡ self.old ++ record { id = id; octets = message.octets } ∷ [] }
    {
        self.ring.move_to(id.saturating_sub(WINDOW - 1));
        self.ring.insert(id, message);
    }

    /// Ends a request that was answered. False comes exactly where it was not outstanding.
    pub fn answered(&mut self, id: u32) -> bool
        ensures found { IsTrue result ↔ Contains (message_ids_of self.old) id }
        ensures ended { self.new ≡ filter (λ message. not (message.id == id)) self.old }
    {
        let found = self.ring.has(id);
        self.ring.remove(id);
        found
    }

    /// The octets of an outstanding request, to be sent again. None exactly where it is not
    /// outstanding.
    pub fn again(&self, id: u32) -> Option<&Octets>
        ensures octets { MatchOption result (kept_octets id self.now ≡ None)
            (λ octets. kept_octets id self.now ≡ Some octets.now.octets) }
        ensures none { MatchOption result (¬ Contains (message_ids_of self.now) id)
            (λ octets. Contains (message_ids_of self.now) id) }
    {
        self.ring.get(id)
    }

    /// Ends all requests, and gives their Message IDs in ascending order.
    pub fn clear(&mut self) -> NumberList<ASKED>
        ensures ended { result ≡ message_ids_of self.old }
        ensures ascending { IsStrictlyIncreasing result }
        ensures none { self.new ≡ [] }
    {
        let ids = self.ring.ids();
        self.ring = Ring::of_one_window();
        ids
    }
}
