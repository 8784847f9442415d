ghost use Rattle.std.specs.Prelude.{◌≡◌, ◌+◌, ◌≤◌, ◌++◌, length, take, drop};
ghost use Rattle.aes_gcm.specs.Gcm.{sealed};
ghost use Rattle.ha_base.specs.KeySizes.{HasKeySize};
ghost use Rattle.sk_payload.specs.Message.{IsDatagram, plain_of};

use crate::frame::Frame;
use crate::front::{ASSOCIATED, CHECK_VALUE, FIRST, FRONT, MESSAGE_OVERHEAD, front_octets};
use aes_gcm::{Key, seal_in_place, sealing_laws};
use ha_base::{DATAGRAM_OCTETS, Octets};
use ike_values::Header;
use spend_once::Number;

/// The message with this header and the payloads of the frame, sealed under the key with the
/// number's value as the IV (RFC 7296, section 3.14; RFC 5282). The number is spent. The message
/// has at most 2,048 octets, 56 more than its plaintext, so that a caller can reserve before what
/// it copies the message to. No memory is taken.
pub fn seal_message(frame: Frame, key: &Key, n: Number, header: &Header) -> Octets
    requires named { n.name ≡ key.now.name }
    ensures datagram { IsDatagram key.now.octets n.value header.now frame.payloads result.octets }
    ensures length { length result.octets ≡ length (plain_of frame.payloads) + MESSAGE_OVERHEAD }
    ensures short { length result.octets ≤ DATAGRAM_OCTETS }
{
    // Sealing keeps lengths, so the length fields are known before.
    sealing_laws();
    let mut message = frame.into_message();
    let length = message.len() + CHECK_VALUE;
    let front = front_octets(header, message[FIRST], length, n.value());
    let tag = seal_text(key, n, &front, &mut message);
    message.extend_from_slice(&tag).unwrap();
    Octets::of(message)
}

/// Seals a message in the making in place, writes what stands before the ciphertext, and gives the
/// integrity check value.
fn seal_text(key: &Key, n: Number, front: &[u8; FRONT], message: &mut [u8]) -> [u8; CHECK_VALUE]
    requires named { n.name ≡ key.now.name }
    requires long { FRONT ≤ length message.old }
    requires small { length message.old ≤ DATAGRAM_OCTETS }
    ensures octets { message.new
        ≡ front.now ++ (sealed key.now.octets n.value (take 32 front.now) (drop 40 message.old)).ciphertext }
    ensures tag { result
        ≡ (sealed key.now.octets n.value (take 32 front.now) (drop 40 message.old)).tag }
    ensures key_size { HasKeySize key.now.octets }
{
    let mut tag = [0; CHECK_VALUE];
    let (before, text) = message.split_at_mut(FRONT);
    before.copy_from_slice(front);
    seal_in_place(key, n, &front[..ASSOCIATED], text, &mut tag);
    tag
}
