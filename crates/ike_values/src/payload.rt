ghost use Rattle.std.specs.Prelude.{◌≡◌, [], ◌∷◌, ◌++◌, map, OnOk, OnErr};

use crate::notifications::first_notify;
use crate::proposal::Proposals;
use crate::selector::Selectors;
use crate::validity::fits_chain;
use ha_base::{Memory, Octets};
use std::alloc::Global;
use std::marker::Model;

/// A payload by its type (RFC 7296, section 3.2). Length fields, counts, reserved fields and the
/// octets that tell the last item of a list are in no value.
#[derive(Debug, Drop)]
pub enum Payload {
    /// Security association, type 33.
    Sa(Proposals),
    /// Key exchange, 34.
    Ke(Octets),
    /// Identification of the initiator, 35.
    IdI(IdBody),
    /// Identification of the responder, 36.
    IdR(IdBody),
    /// Certificate, 37.
    Cert(Octets),
    /// Certificate request, 38.
    CertReq(Octets),
    /// Authentication, 39.
    Auth(AuthBody),
    /// Nonce, 40: 16 to 256 octets.
    Nonce(Octets),
    /// Notify, 41.
    Notify(NotifyBody),
    /// Delete, 42.
    Delete(DeleteBody),
    /// Vendor ID, 43.
    Vendor(Octets),
    /// Traffic selectors of the initiator, 44.
    TsI(Selectors),
    /// Traffic selectors of the responder, 45.
    TsR(Selectors),
    /// Encrypted and authenticated, 46: the last payload of a message.
    Sk(SkBody),
    /// Configuration, 47.
    Cp(Octets),
    /// Extensible authentication, 48.
    Eap(Octets),
    /// A payload of another type, without the critical bit.
    Other(OtherBody),
}

/// An identity (RFC 7296, section 3.5).
#[derive(Debug, Drop)]
pub struct IdBody {
    pub kind: u8,
    pub content: Octets,
}

/// Authentication data (RFC 7296, section 3.8).
#[derive(Debug, Drop)]
pub struct AuthBody {
    pub method: u8,
    pub content: Octets,
}

/// A notification (RFC 7296, section 3.10). The SPI has at most 255 octets on the wire.
#[derive(Debug, Drop)]
pub struct NotifyBody {
    pub protocol: u8,
    pub spi: Octets,
    pub kind: u16,
    pub content: Octets,
}

/// Deleted SPIs (RFC 7296, section 3.11): `number` of them, each of `size` octets, in one list.
#[derive(Debug, Drop)]
pub struct DeleteBody {
    pub protocol: u8,
    pub size: u8,
    pub number: u16,
    pub spis: Octets,
}

/// An encrypted payload with AES-GCM (RFC 5282): the type of the first inner payload, an IV of 8
/// octets, the ciphertext, which is not empty, and the integrity check value.
#[derive(Debug, Drop)]
pub struct SkBody {
    pub first: u8,
    pub iv: u64,
    pub ciphertext: Octets,
    pub icv: [u8; 16],
}

/// A payload whose type is neither 0 nor from 33 to 48.
#[derive(Debug, Drop)]
pub struct OtherBody {
    pub kind: u8,
    pub body: Octets,
}

/// A chain of payloads.
#[derive(Debug, Drop)]
pub struct Payloads {
    items: Vec<Payload>,
}

impl Model for Payloads {
    ghost use Rattle.std.specs.Prelude.{List, map};
    ghost use Rattle.ike_values.specs.Values.{PayloadValue};

    ghost Value = { List PayloadValue };

    ghost use Rattle.ike_values.specs.PayloadView.{payload_value};

    ghost view = { λ list. map payload_value list.items.items };
}

impl Payloads {
    ghost use Rattle.std.specs.Prelude.{◌↔◌, IsTrue, MatchOption, None, Some};
    ghost use Rattle.ike_values.specs.Notifications.{first_notify};
    ghost use Rattle.ike_values.specs.PayloadView.{payload_value};
    ghost use Rattle.ike_values.specs.Chains.{HasSpelling};

    /// No payloads.
    pub fn new(alloc: Global) -> Payloads
        ensures { result ≡ [] }
    {
        Payloads {
            items: Vec::new(alloc),
        }
    }

    /// Appends a payload. An error is want of memory; it leaves the list as it was and drops the
    /// item.
    pub fn push(&mut self, item: Payload) -> Result<(), Memory>
        ensures ok { OnOk result (self.new ≡ self.old ++ payload_value item ∷ []) }
        ensures err { OnErr result (self.new ≡ self.old) }
    {
        match self.items.push(item) {
            Ok(()) => Ok(()),
            Err(_) => Err(Memory),
        }
    }

    /// The payloads in order.
    pub fn as_slice(&self) -> &[Payload]
        ensures { map payload_value result.now ≡ self.now }
    {
        self.items.as_slice()
    }

    /// The data of the first notification of a type (`notify_types`), and none where there is no
    /// such.
    pub fn first_notify(&self, kind: u16) -> Option<&[u8]>
        ensures { MatchOption result
            (first_notify kind self.now ≡ None)
            (λ octets. first_notify kind self.now ≡ Some octets.now) }
    {
        first_notify(self.as_slice(), kind)
    }

    /// Whether the payloads have a spelling. Every size fits its field, SPIs to delete are as many
    /// octets as their size and number say, a nonce has 16 to 256 octets, lists of proposals and of
    /// selectors are not empty, a selector's addresses have the length of its type, the type of an
    /// unknown payload is unknown, and SK is the last payload.
    pub fn is_valid(&self) -> bool
        ensures { IsTrue result ↔ HasSpelling self.now }
    {
        fits_chain(self.as_slice())
    }
}
