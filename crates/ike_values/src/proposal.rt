ghost use Rattle.std.specs.Prelude.{◌≡◌, [], ◌∷◌, ◌++◌, map, OnOk, OnErr};

use crate::transform::Transforms;
use ha_base::{Memory, Octets};
use std::alloc::Global;
use std::marker::Model;

/// A proposal of a security association (RFC 7296, section 3.3.1): its number, its protocol, its
/// SPI and its transforms.
#[derive(Debug, Drop)]
pub struct Proposal {
    pub number: u8,
    pub protocol: u8,
    pub spi: Octets,
    pub transforms: Transforms,
}

/// The proposals of an SA payload.
#[derive(Debug, Drop)]
pub struct Proposals {
    items: Vec<Proposal>,
}

impl Model for Proposals {
    ghost use Rattle.std.specs.Prelude.{List, map};
    ghost use Rattle.ike_values.specs.Values.{ProposalValue};

    ghost Value = { List ProposalValue };

    ghost use Rattle.ike_values.specs.ProposalView.{proposal_value};

    ghost view = { λ list. map proposal_value list.items.items };
}

impl Proposals {
    ghost use Rattle.ike_values.specs.ProposalView.{proposal_value};

    /// No proposals.
    pub fn new(alloc: Global) -> Proposals
        ensures { result ≡ [] }
    {
        Proposals {
            items: Vec::new(alloc),
        }
    }

    /// Appends a proposal. An error is want of memory; it leaves the list as it was and drops the
    /// item.
    pub fn push(&mut self, item: Proposal) -> Result<(), Memory>
        ensures ok { OnOk result (self.new ≡ self.old ++ proposal_value item ∷ []) }
        ensures err { OnErr result (self.new ≡ self.old) }
    {
        match self.items.push(item) {
            Ok(()) => Ok(()),
            Err(_) => Err(Memory),
        }
    }

    /// The proposals in order.
    pub fn as_slice(&self) -> &[Proposal]
        ensures { map proposal_value result.now ≡ self.now }
    {
        self.items.as_slice()
    }
}
