ghost use Rattle.std.specs.Prelude.{◌≡◌, [], ◌∷◌, ◌++◌, map, OnOk, OnErr};

use ha_base::{Memory, Octets};
use std::alloc::Global;
use std::marker::Model;

/// An attribute of a transform (RFC 7296, section 3.3.5). Its type has 15 bits in both forms.
#[derive(Debug, Drop)]
pub enum Attribute {
    /// Two octets of value: the first bit of the type is set on the wire.
    Fixed { kind: u16, value: u16 },
    /// A value of any length that its length field holds.
    Free { kind: u16, value: Octets },
}

/// The attributes of a transform.
#[derive(Debug, Drop)]
pub struct Attributes {
    items: Vec<Attribute>,
}

impl Model for Attributes {
    ghost use Rattle.std.specs.Prelude.{List, map};
    ghost use Rattle.ike_values.specs.Values.{AttributeValue};

    ghost Value = { List AttributeValue };

    ghost use Rattle.ike_values.specs.AttributeView.{attribute_value};

    ghost view = { λ list. map attribute_value list.items.items };
}

impl Attributes {
    ghost use Rattle.ike_values.specs.AttributeView.{attribute_value};

    /// No attributes.
    pub fn new(alloc: Global) -> Attributes
        ensures { result ≡ [] }
    {
        Attributes {
            items: Vec::new(alloc),
        }
    }

    /// Appends an attribute. An error is want of memory; it leaves the list as it was and drops the
    /// item.
    pub fn push(&mut self, item: Attribute) -> Result<(), Memory>
        ensures ok { OnOk result (self.new ≡ self.old ++ attribute_value item ∷ []) }
        ensures err { OnErr result (self.new ≡ self.old) }
    {
        match self.items.push(item) {
            Ok(()) => Ok(()),
            Err(_) => Err(Memory),
        }
    }

    /// The attributes in order.
    pub fn as_slice(&self) -> &[Attribute]
        ensures { map attribute_value result.now ≡ self.now }
    {
        self.items.as_slice()
    }
}
