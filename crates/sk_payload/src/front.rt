ghost use Rattle.std.specs.Prelude.{◌≡◌, ◌-◌, ◌<◌, ◌≤◌, ◌++◌};
ghost use Rattle.ike_values.specs.Headers.{FitsHeader};
ghost use Rattle.ike_encoding.specs.Messages.{header_written};
ghost use Rattle.sk_payload.specs.Front.{sk_front};

use ike_encoding::header_octets;
use ike_values::{HEADER_OCTETS, Header, LENGTH_END, payload_types};

/// How many octets stand before the ciphertext: the header, the SK payload header and the IV.
pub const FRONT: usize = 40;

/// How many of them are authenticated with the ciphertext: the header and the SK payload header.
pub const ASSOCIATED: usize = 32;

/// How many octets the integrity check value has.
pub const CHECK_VALUE: usize = 16;

/// How many octets a message has more than its plaintext: the header, the SK payload header, the IV
/// and the integrity check value.
pub const MESSAGE_OVERHEAD: usize = FRONT + CHECK_VALUE;

/// Where the SK payload header tells the type of the first inner payload.
pub const FIRST: usize = 28;

/// The header of an SK payload of this length, whose first inner payload has this type, and its IV.
fn sk_front(first: u8, length: usize, iv: u64) -> [u8; FRONT - HEADER_OCTETS]
    requires { length < LENGTH_END }
    ensures { result ≡ sk_front first length iv }
{
    let mut octets = [0; FRONT - HEADER_OCTETS];
    octets[..4].copy_from_slice(&[first, 0, (length / 256) as u8, (length % 256) as u8]);
    octets[4..].copy_from_slice(&iv.to_be_bytes());
    octets
}

/// What stands before the ciphertext in a message of this length.
pub fn front_octets(header: &Header, first: u8, length: usize, iv: u64) -> [u8; FRONT]
    requires from { HEADER_OCTETS ≤ length }
    requires small { length < LENGTH_END }
    ensures octets { result
        ≡ header_written header.now 46 length ++ sk_front first (length - HEADER_OCTETS) iv }
    ensures fits { FitsHeader header.now }
{
    let mut octets = [0; FRONT];
    octets[..HEADER_OCTETS].copy_from_slice(&header_octets(
        header,
        payload_types::SK,
        length as u32,
    ));
    octets[HEADER_OCTETS..].copy_from_slice(&sk_front(first, length - HEADER_OCTETS, iv));
    octets
}
