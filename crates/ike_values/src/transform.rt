ghost use Rattle.std.specs.Prelude.{◌≡◌, [], ◌∷◌, ◌++◌, map, OnOk, OnErr};

use crate::attribute::Attributes;
use ha_base::Memory;
use std::alloc::Global;
use std::marker::Model;

/// A transform of a proposal (RFC 7296, section 3.3.2): its type, its ID and its attributes.
#[derive(Debug, Drop)]
pub struct Transform {
    pub kind: u8,
    pub id: u16,
    pub attributes: Attributes,
}

/// The transforms of a proposal.
#[derive(Debug, Drop)]
pub struct Transforms {
    items: Vec<Transform>,
}

impl Model for Transforms {
    ghost use Rattle.std.specs.Prelude.{List, map};
    ghost use Rattle.ike_values.specs.Values.{TransformValue};

    ghost Value = { List TransformValue };

    ghost use Rattle.ike_values.specs.TransformView.{transform_value};

    ghost view = { λ list. map transform_value list.items.items };
}

impl Transforms {
    ghost use Rattle.ike_values.specs.TransformView.{transform_value};

    /// No transforms.
    pub fn new(alloc: Global) -> Transforms
        ensures { result ≡ [] }
    {
        Transforms {
            items: Vec::new(alloc),
        }
    }

    /// Appends a transform. An error is want of memory; it leaves the list as it was and drops the
    /// item.
    pub fn push(&mut self, item: Transform) -> Result<(), Memory>
        ensures ok { OnOk result (self.new ≡ self.old ++ transform_value item ∷ []) }
        ensures err { OnErr result (self.new ≡ self.old) }
    {
        match self.items.push(item) {
            Ok(()) => Ok(()),
            Err(_) => Err(Memory),
        }
    }

    /// The transforms in order.
    pub fn as_slice(&self) -> &[Transform]
        ensures { map transform_value result.now ≡ self.now }
    {
        self.items.as_slice()
    }
}
