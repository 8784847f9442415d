ghost use Rattle.std.specs.Prelude.{◌≡◌, ◌+◌, ◌<◌, ◌≤◌, ◌==◌, [], ◌∷◌, ◌++◌, length, slice_get, vec_capacity, vec_len};
ghost use Rattle.std.specs.Option.{option_copied};

use ha_base::{CounterName, Octets};
use std::marker::Model;

/// A sealing: under which key and IV, what was sealed, and the octets that came of it.
#[derive(Drop)]
pub struct Seal {
    /// The counter of the IV, which also names the key.
    pub name: CounterName,
    pub iv: u64,
    pub plain: Octets,
    pub sealed: Octets,
}

/// At most two seals, in order. It takes no memory.
#[derive(Drop)]
pub struct Seals {
    first: Option<Seal>,
    second: Option<Seal>,
}

impl Model for Seals {
    ghost use Rattle.std.specs.Prelude.{List, ◌++◌, IsSome, option_to_list};
    ghost use Rattle.events.specs.declared.seals.Seal.{Seal};

    ghost Value = { List Seal };

    ghost view = { λ seals. option_to_list seals.first ++ option_to_list seals.second };

    ghost invariant = { λ seals. IsSome seals.second → IsSome seals.first };
}

impl Seals {
    /// No seals.
    pub fn none() -> Seals
        ensures { result ≡ [] }
    {
        Seals {
            first: None,
            second: None,
        }
    }

    /// How many seals there are.
    pub fn len(&self) -> usize
        ensures count { result ≡ length self.now }
        ensures within { result ≤ 2 }
    {
        if self.second.is_some() {
            2
        } else if self.first.is_some() {
            1
        } else {
            0
        }
    }

    /// There is no seal.
    pub fn is_empty(&self) -> bool
        ensures { result ≡ (length self.now == 0) }
    {
        self.first.is_none()
    }

    /// Appends a seal.
    pub fn push(&mut self, seal: Seal)
        requires { length self.old < 2 }
        ensures { self.new ≡ self.old ++ seal ∷ [] }
    {
        if self.first.is_none() {
            self.first = Some(seal);
        } else {
            self.second = Some(seal);
        }
    }

    /// The seal at a place, counted from 0.
    pub fn get(&self, at: usize) -> Option<&Seal>
        ensures { option_copied result ≡ slice_get self.now at }
    {
        match at {
            0 => self.first.as_ref(),
            1 => self.second.as_ref(),
            _ => None,
        }
    }

    /// Moves the seals to the end of a list that has room for them. It takes no memory.
    pub fn append_to(self, list: &mut Vec<Seal>)
        requires { vec_len list.old + length self ≤ vec_capacity list.old }
        ensures { list.new.items ≡ list.old.items ++ self }
    {
        let Seals { first, second } = self;
        if let Some(seal) = first {
            list.push_reserved(seal);
        }
        if let Some(seal) = second {
            list.push_reserved(seal);
        }
    }
}
