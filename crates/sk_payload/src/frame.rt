ghost use Rattle.std.specs.Prelude.{◌≡◌, ◌+◌, ◌≤◌, ◌∷◌, [], ◌++◌, length, vec_len, vec_capacity, true, IfOk};
ghost use Rattle.ike_values.specs.PayloadView.{payload_value};
ghost use Rattle.ike_values.specs.Writing.{body_written};
ghost use Rattle.ike_values.specs.Validity.{AreValid};
ghost use Rattle.ike_values.specs.Notifications.{notify_of};
ghost use Rattle.sk_payload.specs.Message.{plain_of};

use crate::chain::begin_payload;
use crate::front::{CHECK_VALUE, FIRST, FRONT, MESSAGE_OVERHEAD};
use ha_base::{DATAGRAM_OCTETS, Memory, Octets};
use ike_encoding::{encode_body, type_of};
use ike_values::payload_types::NOTIFY;
use ike_values::{Payload, body_len};
use std::alloc::Global;
use std::marker::Model;

/// How many octets the inner payloads of a message may have: all but a pad length, and what stands
/// round the plaintext.
pub const INNER_OCTETS: usize = DATAGRAM_OCTETS - MESSAGE_OVERHEAD - 1;

/// A message in the making: the inner payloads that were put in so far.
///
/// Contracts see these payloads, and how many more octets of them there is room for.
#[derive(Drop)]
pub struct Frame {
    // Room for what stands before the plaintext, and the plaintext.
    message: Octets,
    // The place of the next payload field that tells the type of the payload that is put next.
    link: usize,
}

impl Model for Frame {
    ghost use Rattle.sk_payload.specs.Framed.{Framed};

    ghost Value = { Framed };

    ghost use Rattle.sk_payload.specs.HeldFrame.{frame_of, IsFrame};

    ghost view = { frame_of };

    ghost invariant = { IsFrame };
}

impl Frame {
    ghost use Rattle.sk_payload.specs.HeldFrame.{octets_before};

    /// A message without inner payloads, with room for 1,991 octets of them. An error is want of
    /// memory.
    pub fn new(alloc: Global) -> Result<Frame, Memory>
        ensures none { IfOk result (λ frame. frame.payloads ≡ []) }
        ensures room { IfOk result (λ frame. frame.room ≡ INNER_OCTETS) }
    {
        let mut message = Octets::with_room(alloc, DATAGRAM_OCTETS)?;
        message.extend(&[0; FRONT + 1]).unwrap();
        Ok(Frame {
            message,
            link: FIRST,
        })
    }

    /// How many more octets of inner payloads there is room for.
    pub fn room(&self) -> usize
        ensures { result ≡ self.now.room }
    {
        DATAGRAM_OCTETS - CHECK_VALUE - self.message.as_slice().len()
    }

    /// How many octets the message will have that is sealed with the payloads so far.
    pub fn message_octets(&self) -> usize
        ensures octets { result ≡ length (plain_of self.now.payloads) + MESSAGE_OVERHEAD }
        ensures short { result ≤ DATAGRAM_OCTETS }
    {
        self.message.as_slice().len() + CHECK_VALUE
    }

    /// Appends an inner payload. It has a spelling, is no SK, and there is room for it. No memory
    /// is taken.
    pub fn put(&mut self, payload: &Payload)
        requires valid { AreValid true (payload_value payload.now ∷ []) }
        requires fits { 4 + length (body_written (payload_value payload.now)) ≤ self.old.room }
        ensures payloads { self.new.payloads ≡ self.old.payloads ++ payload_value payload.now ∷ [] }
        ensures room { self.new.room + 4 + length (body_written (payload_value payload.now))
            ≡ self.old.room }
    {
        begin_payload(
            &mut self.message,
            &mut self.link,
            type_of(payload),
            body_len(payload),
        );
        encode_body(payload, &mut self.message).unwrap();
        self.message.push(0).unwrap();
    }

    /// Appends a notification of this type with these data, protocol 0 and no SPI (RFC 7296,
    /// section 3.10). There is room for it. No memory is taken.
    pub fn put_notify(&mut self, ntype: u16, octets: &[u8])
        requires fits { 8 + length octets.now ≤ self.old.room }
        ensures payloads { self.new.payloads ≡ self.old.payloads ++ notify_of ntype octets.now
            ∷ [] }
        ensures room { self.new.room + 8 + length octets.now ≡ self.old.room }
    {
        begin_payload(&mut self.message, &mut self.link, NOTIFY, 4 + octets.len());
        self.message
            .extend(&[0, 0, (ntype / 256) as u8, (ntype % 256) as u8])
            .unwrap();
        self.message.extend(octets).unwrap();
        self.message.push(0).unwrap();
    }

    /// The message in the making.
    pub(crate) fn into_message(self) -> Vec<u8>
        ensures octets { result.items ≡ octets_before 0 self.payloads }
        ensures valid { AreValid true self.payloads }
        ensures small { vec_len result + CHECK_VALUE ≤ DATAGRAM_OCTETS }
        ensures room { DATAGRAM_OCTETS ≤ vec_capacity result }
    {
        self.message.into_vec()
    }

    /// The plaintext that will be sealed: the payloads so far, and a pad length 0.
    pub fn plain(&self) -> &[u8]
        ensures { result.now ≡ plain_of self.now.payloads }
    {
        &self.message.as_slice()[FRONT..]
    }
}
