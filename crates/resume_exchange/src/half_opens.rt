ghost use Rattle.std.specs.Prelude.{◌≡◌, ◌≢◌, ◌<◌, ◌≤◌, [], ◌∷◌, ◌++◌, length, filter, slice_get, Some, IfOk};
ghost use Rattle.std.specs.List.{remove};
ghost use Rattle.keeper_book.specs.declared.pools.TheConstants.{NONCE_NUMBERS_END};

use ha_base::{Derivation, Memory, Moment, Octets};
use std::alloc::Global;
use std::marker::Model;
use tickets::Content;

/// How many half-open associations a member keeps at most.
pub const MAX_HALF_OPENS: usize = 64;

/// How long one is kept, in seconds.
pub const HALF_OPEN_AGE: u64 = 60;

/// An association that a peer asked to resume, and that waits for its IKE_AUTH (RFC 5723, section
/// 4.3.3).
#[derive(Drop)]
pub struct HalfOpen {
    /// When it was begun.
    pub begun: Moment,
    /// The number of the ticket.
    pub ticket: u64,
    /// What the ticket carries.
    pub content: Content,
    /// What the keys are derived from. The responder's SPI is a number of the nonces' pool.
    pub derivation: Derivation,
    /// The request and the response of IKE_SESSION_RESUME, which the AUTH codes sign.
    pub request: Octets,
    pub response: Octets,
    pub ghost number_within: { derivation.spir < NONCE_NUMBERS_END },
}

impl HalfOpen {
    ghost use Rattle.resume_exchange.specs.HalfOpens.{is_live};

    /// Whether it was begun less than 60 seconds ago.
    pub fn is_live(&self, now: Moment) -> bool
        ensures { result ≡ is_live now.0 self.now }
    {
        now.0.saturating_sub(self.begun.0) < HALF_OPEN_AGE
    }
}

/// The half-open associations of a member, the one begun last at the end.
///
/// No more memory is taken once they are made.
#[derive(Drop)]
pub struct HalfOpens {
    kept: Vec<HalfOpen>,
}

impl Model for HalfOpens {
    ghost use Rattle.std.specs.Prelude.{◌≤◌, List, length, vec_capacity};
    ghost use Rattle.resume_exchange.specs.declared.half_opens.HalfOpen.{HalfOpen};
    ghost use Rattle.resume_exchange.specs.declared.half_opens.TheConstants.{MAX_HALF_OPENS};

    ghost Value = { List HalfOpen };

    ghost view = { λ half_opens. half_opens.kept.items };

    ghost invariant = { λ half_opens.
        (length half_opens.kept.items ≤ MAX_HALF_OPENS)
        × (MAX_HALF_OPENS ≤ vec_capacity half_opens.kept) };
}

impl HalfOpens {
    ghost use Rattle.resume_exchange.specs.HalfOpens.{is_live};

    /// None, and room for 64. An error is want of memory.
    pub fn new(alloc: Global) -> Result<HalfOpens, Memory>
        ensures { IfOk result (λ half_opens. half_opens ≡ []) }
    {
        match Vec::with_capacity(alloc, MAX_HALF_OPENS) {
            Ok(kept) => Ok(HalfOpens { kept }),
            Err(_) => Err(Memory),
        }
    }

    /// Removes those that were begun 60 seconds ago or earlier.
    pub fn forget_old(&mut self, now: Moment)
        ensures { self.new ≡ filter (is_live now.0) self.old }
    {
        self.kept.retain(|half_open| half_open.is_live(now));
    }

    /// How many there are, 64 at most.
    pub fn count(&self) -> usize
        ensures count { result ≡ length self.now }
        ensures limit { length self.now ≤ MAX_HALF_OPENS }
    {
        self.kept.len()
    }

    /// The half-open associations, the one begun last at the end.
    pub fn as_slice(&self) -> &[HalfOpen]
        ensures { result.now ≡ self.now }
    {
        self.kept.as_slice()
    }

    /// Removes the one at this place, and gives it.
    #[tactic(auto, using(std::proofs::lemmas::Option::slice_get_read))]
    pub fn remove(&mut self, place: usize) -> HalfOpen
        requires { place < length self.old }
        ensures removed { slice_get self.old place ≡ Some result }
        ensures left { self.new ≡ remove self.old place }
    {
        self.kept.remove(place)
    }

    /// Keeps one more, for which there is room.
    pub fn put(&mut self, half_open: HalfOpen)
        requires { length self.old ≢ MAX_HALF_OPENS }
        ensures { self.new ≡ self.old ++ half_open ∷ [] }
    {
        self.kept.push_reserved(half_open);
    }
}
