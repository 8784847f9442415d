ghost use Rattle.std.specs.Prelude.{◌≡◌, Some};
ghost use Rattle.std.proofs.Props.{props};
ghost use Rattle.keeper_book.specs.Counters.{AreWithinEnds};
ghost use Rattle.keeper_book.specs.Records.{HaveKeyLengths, spir_of_origin};

use crate::counters::Five;
use ha_base::{ChildKeys, Identity, KeySize, Origin, SaKeys};

/// An association as it is recorded: all that a member needs to take it over.
#[derive(Debug, PartialEq, Eq, Drop)]
pub struct Record {
    /// Imported with this responder's SPI, or resumed under a derivation with it.
    pub origin: Origin,
    /// The initiator's SPI.
    pub spii: u64,
    /// The responder's SPI.
    pub spir: u64,
    pub size: KeySize,
    /// The peer's identity.
    pub identity: Identity,
    pub keys: SaKeys,
    /// The ESP SPI at which the cluster receives.
    pub spi_in: u32,
    /// The ESP SPI at which the peer receives.
    pub spi_out: u32,
    pub child: ChildKeys,
    /// Where each counter begins, at most at its end.
    pub starts: Five,
    pub ghost origin_is_own: { spir_of_origin origin ≡ Some spir } by { Prim.hlevel props },
    pub ghost key_lengths: { HaveKeyLengths size keys child },
    pub ghost starts_within: { AreWithinEnds starts },
}

/// What a member holds of an association that it took over: its epoch, the bases of this epoch, and
/// the record.
#[derive(Debug, PartialEq, Eq, Drop)]
pub struct Taken {
    pub epoch: u64,
    pub bases: Five,
    pub sa: Record,
}

impl Record {
    /// The same record once more. It takes no memory.
    pub fn copied(&self) -> Record
        ensures { result ≡ self.now }
    {
        Record {
            origin: self.origin,
            spii: self.spii,
            spir: self.spir,
            size: self.size,
            identity: self.identity,
            keys: self.keys.copied(),
            spi_in: self.spi_in,
            spi_out: self.spi_out,
            child: self.child.copied(),
            starts: self.starts,
        }
    }
}

impl Taken {
    /// The same once more. It takes no memory.
    pub fn copied(&self) -> Taken
        ensures { result ≡ self.now }
    {
        Taken {
            epoch: self.epoch,
            bases: self.bases,
            sa: self.sa.copied(),
        }
    }
}
