ghost use Rattle.std.specs.Prelude.{◌≡◌, ◌+◌, ◌≤◌, [], ◌∷◌, ◌++◌, length, IfOk};
ghost use Rattle.ike_sas.specs.Answers.{request_payloads};
ghost use Rattle.ike_sas.specs.Sending.{SendsIke};
ghost use Rattle.ike_values.specs.Notifications.{notify_of};

use aes_gcm::Key;
use events::{Datagram, Medium, Seal};
use ha_base::{LONGEST_REQUEST, Memory, Octets};
use ike_values::Header;
use ike_values::notify_types::REQUEST_DATA;
use sk_payload::{Frame, INNER_OCTETS, MESSAGE_OVERHEAD, seal_message};
use spend_once::Number;
use std::alloc::Global;
use std::marker::Model;

/// A message that was sealed, and the datagram that carries it.
#[derive(Drop)]
pub struct SentMessage {
    pub seal: Seal,
    pub datagram: Datagram,
}

/// A message that was sealed, and its octets once more, to be kept.
#[derive(Drop)]
pub(crate) struct Sealed {
    pub(crate) sent: SentMessage,
    pub(crate) kept: Octets,
}

/// A message in the making, with room for its sealing and for each copy that is made of it: the
/// one that is noted, the one that is given and the one that is kept.
///
/// Contracts see its inner payloads, and how many more octets of them there is room for.
#[derive(Drop)]
pub struct Draft {
    frame: Frame,
    left: usize,
    plain: Octets,
    sealed: Octets,
    given: Octets,
    kept: Octets,
}

impl Model for Draft {
    ghost use Rattle.sk_payload.specs.Framed.{Framed};
    ghost use Rattle.ike_sas.specs.Drafts.{IsDraft};

    ghost Value = { Framed };

    ghost view = { λ d. record { payloads = d.frame.payloads; room = d.left } };

    ghost invariant = { λ d. IsDraft d.frame d.left d.plain d.sealed d.given d.kept };
}

impl Draft {
    /// No inner payloads, and room for so many octets of them, at most 1,991. An error is want of
    /// memory.
    pub fn new(alloc: Global, inner: usize) -> Result<Draft, Memory>
        requires { inner ≤ INNER_OCTETS }
        ensures { IfOk result (λ draft. draft ≡ record { payloads = []; room = inner }) }
    {
        let octets = inner + 1 + MESSAGE_OVERHEAD;
        Ok(Draft {
            frame: Frame::new(alloc)?,
            left: inner,
            plain: Octets::with_room(alloc, inner + 1)?,
            sealed: Octets::with_room(alloc, octets)?,
            given: Octets::with_room(alloc, octets)?,
            kept: Octets::with_room(alloc, octets)?,
        })
    }

    /// What an end sends to have these data executed by the other end's service. An error is want
    /// of memory.
    pub fn of_request(alloc: Global, request: &[u8]) -> Result<Draft, Memory>
        requires { length request.now ≤ LONGEST_REQUEST }
        ensures { IfOk result (λ draft. draft.payloads ≡ request_payloads request.now) }
    {
        let mut draft = Draft::new(alloc, 8 + request.len())?;
        draft.put_notify(REQUEST_DATA, request);
        Ok(draft)
    }

    /// Appends a notification of this type with these data, protocol 0 and no SPI (RFC 7296,
    /// section 3.10). There is room for it. No memory is taken.
    pub fn put_notify(&mut self, kind: u16, octets: &[u8])
        requires fits { 8 + length octets.now ≤ self.old.room }
        ensures payloads { self.new.payloads ≡ self.old.payloads ++ notify_of kind octets.now ∷ [] }
        ensures room { self.new.room + 8 + length octets.now ≡ self.old.room }
    {
        self.frame.put_notify(kind, octets);
        self.left -= 8 + octets.len();
    }

    /// Seals the message with this header, with the number as its IV. The number is spent. No
    /// memory is taken.
    pub(crate) fn seal(self, key: &Key, number: Number, header: &Header) -> Sealed
        requires named { number.name ≡ key.now.name }
        ensures sends { SendsIke key.now number.value header.now self.payloads result.sent }
        ensures kept { result.kept.octets ≡ result.sent.datagram.octets.octets }
    {
        let Draft {
            frame,
            left: _,
            mut plain,
            mut sealed,
            mut given,
            mut kept,
        } = self;
        let iv = number.value();
        plain.extend(frame.plain()).unwrap();
        let message = seal_message(frame, key, number, header);
        sealed.extend(message.as_slice()).unwrap();
        given.extend(message.as_slice()).unwrap();
        kept.extend(message.as_slice()).unwrap();
        let seal = Seal {
            name: key.name(),
            iv,
            plain,
            sealed,
        };
        let datagram = Datagram {
            medium: Medium::Ike,
            octets: given,
        };
        Sealed {
            sent: SentMessage { seal, datagram },
            kept,
        }
    }
}
