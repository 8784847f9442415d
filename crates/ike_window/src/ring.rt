ghost use Rattle.std.specs.Prelude.{◌≡◌, ◌==◌, ◌+◌, ◌<◌, ◌≤◌, ◌^◌, Contains, false, Some, None, [], MatchOption, filter, nat_le, not, replicate, if◌then◌else◌};
ghost use Rattle.std.specs.List.Sorted.{IsStrictlyIncreasing};
ghost use Rattle.ike_window.specs.declared.TheConstants.{ASKED, LAST_ID};
ghost use Rattle.ike_window.specs.Kept.{AllBelow, RiseFrom, message_ids_of, has_message_id, kept_octets, with_kept};
ghost use Rattle.ike_window.specs.Requests.{IsLeastFree};
ghost use Rattle.ike_window.specs.Slots.{from_on, octets_in_slot};

use crate::message::Message;
use crate::{ANSWERED, ASKED, LAST_ID};
use ha_base::{NumberList, Octets};
use std::marker::Model;

/// The messages of `N` Message IDs in a row, each in the slot of its remainder by `N`.
#[derive(Drop)]
pub(crate) struct Ring<const N: usize> {
    first: u32,
    slots: [Option<Message>; N],
}

impl<const N: usize> Model for Ring<N> {
    ghost use Rattle.std.specs.Prelude.{◌<◌};
    ghost use Rattle.ike_window.specs.Slots.{IsRing, SlidingRing, messages_from};

    ghost Value = { SlidingRing };

    ghost view = { λ ring. record {
      first = ring.first;
      kept = messages_from ring.slots N ring.first;
    } };

    ghost invariant = { λ ring. (0 < N) × IsRing ring.first ring.slots };
}

/// The octets that a slot keeps under a Message ID.
fn octets_in_slot(slot: &Option<Message>, id: u32) -> Option<&Octets>
    ensures { MatchOption result (octets_in_slot slot.now id ≡ None)
        (λ octets. octets_in_slot slot.now id ≡ Some octets.now.octets) }
{
    match slot {
        Some(message) if message.id == id => Some(&message.octets),
        _ => None,
    }
}

/// Drops a message below a Message ID.
fn drop_below(slot: &mut Option<Message>, least: u32)
    ensures { slot.new ≡ from_on least slot.old }
{
    match slot {
        Some(message) if message.id < least => *slot = None,
        _ => {}
    }
}

impl Ring<ASKED> {
    /// No messages, and slots for those of one window.
    pub(crate) fn of_one_window() -> Self
        ensures { result ≡ record { first = 0; kept = [] } }
    {
        Ring::of(0, [None, None, None, None, None, None, None, None])
    }

    /// The Message IDs of the messages, in ascending order.
    pub(crate) fn ids(&self) -> NumberList<ASKED>
        requires { self.now.first + ASKED ≤ 2 ^ 32 }
        ensures ids { result ≡ message_ids_of self.now.kept }
        ensures ascending { IsStrictlyIncreasing result }
    {
        self.ids_from(self.first())
    }

    /// The Message IDs of the messages, all of which are among so many from `first` on.
    fn ids_from(&self, first: u32) -> NumberList<ASKED>
        requires fits { first + ASKED ≤ 2 ^ 32 }
        requires rising { RiseFrom first self.now.kept }
        requires within { AllBelow (first + ASKED) self.now.kept }
        ensures { result ≡ message_ids_of self.now.kept }
    {
        let mut ids = NumberList::new();
        for step in 0..ASKED {
            let id = first + step as u32;
            if self.has(id) {
                ids.push(id);
            }
        }
        ids
    }
}

impl Ring<ANSWERED> {
    /// No messages, and slots for those of two windows.
    pub(crate) fn of_two_windows(first: u32) -> Self
        ensures { result ≡ record { first = first; kept = [] } }
    {
        let slots = [
            None, None, None, None, None, None, None, None, None, None, None, None, None, None,
            None, None,
        ];
        Ring::of(first, slots)
    }
}

impl<const N: usize> Ring<N> {
    /// These slots, which keep no messages.
    fn of(first: u32, slots: [Option<Message>; N]) -> Self
        requires some { 0 < N }
        requires none { slots ≡ replicate N None }
        ensures { result ≡ record { first = first; kept = [] } }
    {
        Ring { first, slots }
    }

    /// The first Message ID that has a slot.
    fn first(&self) -> u32
        ensures value { result ≡ self.now.first }
        ensures rising { RiseFrom self.now.first self.now.kept }
        ensures within { AllBelow (self.now.first + N) self.now.kept }
    {
        let Ring { first, slots: _ } = self;
        *first
    }

    /// The octets of a message.
    pub(crate) fn get(&self, id: u32) -> Option<&Octets>
        ensures { MatchOption result (kept_octets id self.now.kept ≡ None)
            (λ octets. kept_octets id self.now.kept ≡ Some octets.now.octets) }
    {
        let _ = &self.first;
        octets_in_slot(&self.slots[id as usize % N], id)
    }

    /// There is a message of this Message ID.
    pub(crate) fn has(&self, id: u32) -> bool
        ensures { result ≡ has_message_id (message_ids_of self.now.kept) id }
    {
        self.get(id).is_some()
    }

    /// The first of the Message IDs from `from` on that no message has.
    pub(crate) fn first_free(&self, from: u32) -> u32
        requires { AllBelow LAST_ID self.now.kept }
        ensures { IsLeastFree from (Contains (message_ids_of self.now.kept)) result }
    {
        for id in from..LAST_ID {
            if !self.has(id) {
                return id;
            }
        }
        LAST_ID
    }

    /// Keeps one message more, of a Message ID that has a slot and no message.
    pub(crate) fn insert(&mut self, id: u32, octets: Octets)
        requires from { self.old.first ≤ id }
        requires within { id < self.old.first + N }
        requires free { has_message_id (message_ids_of self.old.kept) id ≡ false }
        ensures { self.new ≡ record self.old {
          kept = with_kept (record { id = id; octets = octets.octets }) self.old.kept;
        } }
    {
        self.slots[id as usize % N] = Some(Message { id, octets });
    }

    /// Removes a message, where there is one of this Message ID.
    pub(crate) fn remove(&mut self, id: u32)
        ensures { self.new ≡ record self.old {
          kept = filter (λ message. not (message.id == id)) self.old.kept;
        } }
    {
        if !self.has(id) {
            return;
        }
        self.slots[id as usize % N] = None;
    }

    /// Has slots for the Message IDs from `first` on, and drops the messages below.
    pub(crate) fn move_to(&mut self, first: u32)
        requires { AllBelow (first + N) self.old.kept }
        ensures { self.new ≡ record {
          first = first;
          kept = filter (λ message. nat_le first message.id) self.old.kept;
        } }
    {
        for slot in &mut self.slots {
            drop_below(slot, first);
        }
        self.first = first;
    }
}
