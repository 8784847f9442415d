ghost use Rattle.std.specs.Prelude.{◌≡◌, ◌+◌, ◌≤◌, [], ◌++◌, length};
ghost use Rattle.esp_packets.specs.Packet.{esp_plaintext, IsEspDatagram};

use super::packet::{CHECK_VALUE, associated, header_octets};
use super::plain::{MAX_PLAIN, PACKET_OVERHEAD, write_plain};
use aes_gcm::{Key, seal_in_place};
use ha_base::{Octets, PAYLOAD_OCTETS};
use spend_once::Number;

/// Writes to `out` the plaintext that is sealed for a payload of at most 1,400 octets: the payload,
/// the shortest padding, the pad length and the next header (RFC 4303, section 2). There is room
/// for the packet.
pub fn spell_plain(payload: &[u8], next_header: u8, out: &mut Octets)
    requires empty { out.old.octets ≡ [] }
    requires room { length payload.now + PACKET_OVERHEAD ≤ out.old.spare }
    requires size { length payload.now ≤ PAYLOAD_OCTETS }
    ensures { out.new.octets ≡ esp_plaintext payload.now next_header }
{
    let mut buffer = [0; MAX_PLAIN];
    let end = write_plain(payload, next_header, &mut buffer);
    append(out, &buffer[..end]);
}

/// Writes to `out` the ESP packet of a payload of at most 1,400 octets. Its sequence number and its
/// IV are the number, which is spent. It has at most 1,436 octets, and there is room for it.
pub fn seal_packet(
    key: &Key,
    spi: u32,
    n: Number,
    payload: &[u8],
    next_header: u8,
    out: &mut Octets,
)
    requires named { n.name ≡ key.now.name }
    requires empty { out.old.octets ≡ [] }
    requires room { length payload.now + PACKET_OVERHEAD ≤ out.old.spare }
    requires size { length payload.now ≤ PAYLOAD_OCTETS }
    ensures datagram { IsEspDatagram key.now.octets spi n.value payload.now next_header out.new.octets }
    ensures overhead { length out.new.octets ≤ length payload.now + PACKET_OVERHEAD }
    ensures short { length out.new.octets ≤ 1436 }
{
    let number = n.value();
    let mut buffer = [0; MAX_PLAIN];
    let end = write_plain(payload, next_header, &mut buffer);
    let mut tag = [0; CHECK_VALUE];
    seal_in_place(
        key,
        n,
        &associated(spi, number),
        &mut buffer[..end],
        &mut tag,
    );
    append(out, &header_octets(spi, number, number));
    append(out, &buffer[..end]);
    append(out, &tag);
}

/// Appends octets for which there is room.
fn append(out: &mut Octets, octets: &[u8])
    requires { length octets.now ≤ out.old.spare }
    ensures octets { out.new.octets ≡ out.old.octets ++ octets.now }
    ensures spare { out.old.spare ≤ out.new.spare + length octets.now }
{
    out.extend(octets).unwrap();
}
