//! A turn of a run: an event and all that came of it.

ghost use Rattle.std.specs.Prelude.{◌≡◌, [], None};

use crate::event::Event;
use crate::seals::Seals;
use crate::verdict::Verdict;
use ha_base::{Moment, Octets};
use keeper_book::Calls;

/// A request that a service executed, and its reply.
#[derive(Drop)]
pub struct Served {
    pub request: Octets,
    pub reply: Octets,
}

/// What a datagram carries.
#[derive(Clone, Copy)]
pub enum Medium {
    /// An IKE message (RFC 7296, section 3.1).
    Ike,
    /// An ESP packet (RFC 4303, section 2).
    Esp,
}

/// A datagram between the cluster and the peer.
#[derive(Drop)]
pub struct Datagram {
    pub medium: Medium,
    pub octets: Octets,
}

/// What an end did.
#[derive(Drop)]
pub struct Step {
    pub verdict: Verdict,
    /// What a service executed, if any.
    pub served: Option<Served>,
    /// What was sealed, in the order of sealing.
    pub seals: Seals,
    /// The datagram that was sent, if any.
    pub gives: Option<Datagram>,
}

/// An event, the calls of the keeper that it made, in order, and what the end did.
#[derive(Drop)]
pub struct Turn {
    pub moment: Moment,
    pub event: Event,
    pub calls: Calls,
    pub step: Step,
}

impl Step {
    /// A step that says how the event came out, and nothing else: nothing was executed, sealed or
    /// sent.
    pub fn quiet(verdict: Verdict) -> Step
        ensures verdict { result.verdict ≡ verdict }
        ensures served { result.served ≡ None }
        ensures seals { result.seals ≡ [] }
        ensures gives { result.gives ≡ None }
    {
        Step {
            verdict,
            served: None,
            seals: Seals::none(),
            gives: None,
        }
    }
}
