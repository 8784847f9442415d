ghost use Rattle.std.specs.Prelude.{◌≡◌, []};
ghost use Rattle.ike_window.specs.Stored.{no_responses};

use crate::keys::IkeKeys;
use ike_window::{Answering, Asking};
use std::marker::Model;

/// What an end holds of the IKE messages of an association.
#[derive(Drop)]
pub struct IkeSa {
    pub(crate) keys: IkeKeys,
    pub(crate) asking: Asking,
    pub(crate) next: u32,
    pub(crate) answering: Answering,
    pub(crate) synced: bool,
}

impl Model for IkeSa {
    ghost use Rattle.ike_sas.specs.Held.{IkeHeld};
    ghost use Rattle.ike_window.specs.Kept.{AllBelow};

    ghost Value = { IkeHeld };

    ghost view = { λ sa. record {
      keys = sa.keys;
      asked = sa.asking;
      next = sa.next;
      answered = sa.answering;
      synced = sa.synced;
    } };

    ghost invariant = { λ sa. AllBelow sa.next sa.asking };
}

impl IkeSa {
    /// No request is outstanding, and the Message IDs of this end's own requests begin at `next`.
    /// Nothing was answered, and requests below `floor` are old. An end that has yet to synchronise
    /// answers no request.
    pub fn new(keys: IkeKeys, next: u32, floor: u32, synced: bool) -> IkeSa
        ensures { result ≡ record {
          keys = keys;
          asked = [];
          next = next;
          answered = no_responses floor;
          synced = synced;
        } }
    {
        IkeSa {
            keys,
            asking: Asking::new(),
            next,
            answering: Answering::new(floor),
            synced,
        }
    }

    /// The initiator's SPI.
    pub fn spii(&self) -> u64
        ensures { result ≡ self.now.keys.spii }
    {
        self.keys.spii
    }

    /// The responder's SPI.
    pub fn spir(&self) -> u64
        ensures { result ≡ self.now.keys.spir }
    {
        self.keys.spir
    }

    /// The least Message ID that this end's next request may have.
    pub fn next(&self) -> u32
        ensures { result ≡ self.now.next }
    {
        self.next
    }

    /// The Message ID below which every request is old.
    pub fn floor(&self) -> u32
        ensures { result ≡ self.now.answered.floor }
    {
        self.answering.floor()
    }

    /// Whether this end answers requests: a member that took over has to synchronise first.
    pub fn synced(&self) -> bool
        ensures { result ≡ self.now.synced }
    {
        self.synced
    }
}
