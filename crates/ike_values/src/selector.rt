ghost use Rattle.std.specs.Prelude.{◌≡◌, [], ◌∷◌, ◌++◌, map, OnOk, OnErr};

use ha_base::{Memory, OctetList};
use std::alloc::Global;
use std::marker::Model;

/// The type of a selector of IPv4 addresses (RFC 7296, section 3.13.1).
pub const IPV4_RANGE: u8 = 7;

/// The type of a selector of IPv6 addresses.
pub const IPV6_RANGE: u8 = 8;

/// A traffic selector (RFC 7296, section 3.13.1): type 7 has two IPv4 addresses, type 8 two IPv6
/// addresses.
#[derive(Clone, Debug, Drop)]
pub struct Selector {
    pub kind: u8,
    pub protocol: u8,
    pub start_port: u16,
    pub end_port: u16,
    pub start: OctetList<16>,
    pub end: OctetList<16>,
}

/// The selectors of a TSi or TSr payload.
#[derive(Debug, Drop)]
pub struct Selectors {
    items: Vec<Selector>,
}

impl Model for Selectors {
    ghost use Rattle.std.specs.Prelude.{List, map};
    ghost use Rattle.ike_values.specs.Values.{SelectorValue};

    ghost Value = { List SelectorValue };

    ghost use Rattle.ike_values.specs.SelectorView.{selector_value};

    ghost view = { λ list. map selector_value list.items.items };
}

impl Selectors {
    ghost use Rattle.ike_values.specs.SelectorView.{selector_value};

    /// No selectors.
    pub fn new(alloc: Global) -> Selectors
        ensures { result ≡ [] }
    {
        Selectors {
            items: Vec::new(alloc),
        }
    }

    /// Appends a selector. An error is want of memory; it leaves the list as it was and drops the
    /// item.
    pub fn push(&mut self, item: Selector) -> Result<(), Memory>
        ensures ok { OnOk result (self.new ≡ self.old ++ selector_value item ∷ []) }
        ensures err { OnErr result (self.new ≡ self.old) }
    {
        match self.items.push(item) {
            Ok(()) => Ok(()),
            Err(_) => Err(Memory),
        }
    }

    /// The selectors in order.
    pub fn as_slice(&self) -> &[Selector]
        ensures { map selector_value result.now ≡ self.now }
    {
        self.items.as_slice()
    }
}
