ghost use Rattle.std.specs.Prelude.{◌≡◌, ◌+◌, ◌<◌, ◌≤◌, List, [], ◌∷◌, ◌++◌, length};

use arrayvec::ArrayVec;
use std::marker::Model;

/// At most `N` octets in place.
#[derive(Clone, Debug, PartialEq, Eq, Drop)]
pub struct OctetList<const N: usize> {
    kept: ArrayVec<u8, N>,
}

impl<const N: usize> Model for OctetList<N> {
    ghost use Rattle.std.specs.Prelude.{ℕ, List};

    ghost Value = { List ℕ };

    ghost view = { λ list. list.kept.items };

    ghost inverse = { λ items. record { kept = record { items = items } } };
}

impl<const N: usize> OctetList<N> {
    /// No octets.
    pub fn new() -> Self
        ensures { result ≡ [] }
    {
        OctetList {
            kept: ArrayVec::new(),
        }
    }

    /// The octets of a slice.
    pub fn from_slice(octets: &[u8]) -> Self
        requires { length octets.now ≤ N }
        ensures { result ≡ octets.now }
    {
        let mut kept = ArrayVec::new();
        for octet in octets {
            kept.push(*octet);
        }
        OctetList { kept }
    }

    /// Appends an octet.
    pub fn push(&mut self, octet: u8)
        requires { length self.old < N }
        ensures { self.new ≡ self.old ++ octet ∷ [] }
    {
        self.kept.push(octet);
    }

    /// The octets.
    pub fn as_slice(&self) -> &[u8]
        ensures value { result.now ≡ self.now }
        ensures within { length self.now ≤ N }
    {
        self.kept.as_slice()
    }
}

/// At most `N` numbers of 32 bits in place, such as Message IDs.
#[derive(Clone, Debug, PartialEq, Eq, Drop)]
pub struct NumberList<const N: usize> {
    kept: ArrayVec<u32, N>,
}

impl<const N: usize> Model for NumberList<N> {
    ghost use Rattle.std.specs.Prelude.{ℕ, List};

    ghost Value = { List ℕ };

    ghost view = { λ list. list.kept.items };

    ghost inverse = { λ items. record { kept = record { items = items } } };
}

impl<const N: usize> NumberList<N> {
    /// No numbers.
    pub fn new() -> Self
        ensures { result ≡ [] }
    {
        NumberList {
            kept: ArrayVec::new(),
        }
    }

    /// Appends a number.
    pub fn push(&mut self, number: u32)
        requires { length self.old < N }
        ensures { self.new ≡ self.old ++ number ∷ [] }
    {
        self.kept.push(number);
    }

    /// The numbers.
    pub fn as_slice(&self) -> &[u32]
        ensures value { result.now ≡ self.now }
        ensures within { length self.now ≤ N }
    {
        self.kept.as_slice()
    }
}

/// At most `N` octets in place, which are copied without memory.
#[derive(Clone, Copy, Debug, PartialEq, Eq)]
pub struct OctetArray<const N: usize> {
    kept: [u8; N],
    len: usize,
}

impl<const N: usize> Model for OctetArray<N> {
    ghost use Rattle.std.specs.Prelude.{ℕ, List, length, take};
    ghost use Rattle.ha_base.specs.OctetArray.{IsPadded, padded_to};

    ghost Value = { List ℕ };

    ghost view = { λ array. take array.len array.kept };

    ghost invariant = { λ array. IsPadded N array.kept array.len };

    ghost inverse = { λ octets. record { kept = padded_to N octets; len = length octets } };

    ghost inverse_ok = { λ array h i. record { kept = h.zeros i; len = h.front i } };
}

impl<const N: usize> OctetArray<N> {
    /// No octets.
    pub fn new() -> Self
        ensures { result ≡ [] }
    {
        OctetArray {
            kept: [0; N],
            len: 0,
        }
    }

    /// The octets of a slice.
    pub fn from_slice(octets: &[u8]) -> Self
        requires { length octets.now ≤ N }
        ensures { result ≡ octets.now }
    {
        let mut array = OctetArray::new();
        for octet in octets {
            array.push(*octet);
        }
        array
    }

    /// Appends an octet.
    pub fn push(&mut self, octet: u8)
        requires { length self.old < N }
        ensures { self.new ≡ self.old ++ octet ∷ [] }
    {
        self.kept[self.len] = octet;
        self.len += 1;
    }

    /// The octets.
    pub fn as_slice(&self) -> &[u8]
        ensures value { result.now ≡ self.now }
        ensures within { length self.now ≤ N }
    {
        &self.kept[..self.len]
    }
}
