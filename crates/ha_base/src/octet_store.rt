ghost use Rattle.std.specs.Prelude.{◌≡◌, ◌+◌, ◌<◌, ◌≤◌, [], ◌∷◌, ◌++◌, length, slice_set, vec_capacity, IsOk, IfOk, OnOk, OnErr};
ghost use Rattle.ha_base.specs.declared.limits.TheConstants.{ALLOCATION_END};

use crate::outside::Memory;
use std::alloc::Global;
use std::marker::Model;

/// Octets that grow, with the room that they have left.
#[derive(Debug, Drop)]
pub struct Octets {
    kept: Vec<u8>,
}

impl Model for Octets {
    ghost use Rattle.std.specs.Prelude.{◌-◌, vec_len, vec_capacity};
    ghost use Rattle.ha_base.specs.Octets.{WithRoom};

    ghost Value = { WithRoom };

    ghost view = { λ o. record {
      octets = o.kept.items;
      spare = vec_capacity o.kept - vec_len o.kept;
    } };
}

impl Octets {
    /// No octets, and no room.
    pub fn new(alloc: Global) -> Octets
        ensures { result.octets ≡ [] }
    {
        Octets {
            kept: Vec::new(alloc),
        }
    }

    /// These octets.
    pub fn of(kept: Vec<u8>) -> Octets
        ensures { result.octets ≡ kept.items }
    {
        Octets { kept }
    }

    /// No octets, and room for `room` of them and no more. An error is want of memory.
    pub fn with_room(alloc: Global, room: usize) -> Result<Octets, Memory>
        ensures none { IfOk result (λ o. o.octets ≡ []) }
        ensures room { IfOk result (λ o. room ≤ o.spare) }
        ensures exact { IfOk result (λ o. o.spare ≡ room) }
    {
        match Vec::with_capacity(alloc, room) {
            Ok(kept) => Ok(Octets { kept }),
            Err(_) => Err(Memory),
        }
    }

    /// Appends an octet. An error is want of memory, and never comes where there is room.
    pub fn push(&mut self, octet: u8) -> Result<(), Memory>
        ensures ok { OnOk result (self.new.octets ≡ self.old.octets ++ octet ∷ []) }
        ensures err { OnErr result (self.new.octets ≡ self.old.octets) }
        ensures spare { OnOk result (self.old.spare ≤ self.new.spare + 1) }
        ensures room_left { OnErr result (self.old.spare ≤ self.new.spare) }
        ensures small { length self.new.octets < ALLOCATION_END }
        ensures room { 1 ≤ self.old.spare → IsOk result }
    {
        match self.kept.push(octet) {
            Ok(()) => Ok(()),
            Err(_) => Err(Memory),
        }
    }

    /// Appends all of a slice. An error is want of memory, and never comes where there is room for
    /// it.
    pub fn extend(&mut self, octets: &[u8]) -> Result<(), Memory>
        ensures ok { OnOk result (self.new.octets ≡ self.old.octets ++ octets.now) }
        ensures err { OnErr result (self.new.octets ≡ self.old.octets) }
        ensures spare { OnOk result (self.old.spare ≤ self.new.spare + length octets.now) }
        ensures room_left { OnErr result (self.old.spare ≤ self.new.spare) }
        ensures small { length self.new.octets < ALLOCATION_END }
        ensures room { length octets.now ≤ self.old.spare → IsOk result }
    {
        match self.kept.extend_from_slice(octets) {
            Ok(()) => Ok(()),
            Err(_) => Err(Memory),
        }
    }

    /// Changes the octet at a place, counted from 0.
    pub fn set(&mut self, place: usize, octet: u8)
        requires { place < length self.old.octets }
        ensures octets { self.new.octets ≡ slice_set self.old.octets place octet }
        ensures spare { self.new.spare ≡ self.old.spare }
    {
        self.kept[place] = octet;
    }

    /// The list of the octets, which keeps the room.
    pub fn into_vec(self) -> Vec<u8>
        ensures octets { result.items ≡ self.octets }
        ensures room { length self.octets + self.spare ≤ vec_capacity result }
    {
        self.kept
    }

    /// The octets.
    pub fn as_slice(&self) -> &[u8]
        ensures value { result.now ≡ self.now.octets }
        ensures small { length self.now.octets < ALLOCATION_END }
    {
        self.kept.as_slice()
    }
}
