ghost use Rattle.std.specs.Prelude.{◌≡◌, ◌+◌, ◌≤◌, length, take};
ghost use Rattle.esp_packets.specs.Packet.{esp_plaintext};

use ha_base::PAYLOAD_OCTETS;

/// How many octets a plaintext has at most, written with the shortest padding.
pub const MAX_PLAIN: usize = PAYLOAD_OCTETS + 4;

/// How many octets a packet has more than its payload, at most: SPI, low half, IV, the longest
/// padding, pad length, next header and integrity check value.
pub const PACKET_OVERHEAD: usize = 37;

/// The longest padding.
const PADDING: [u8; 3] = [1, 2, 3];

/// Writes the plaintext of a payload to the front of a buffer, and tells its length.
pub fn write_plain(payload: &[u8], next_header: u8, buffer: &mut [u8; MAX_PLAIN]) -> usize
    requires { length payload.now ≤ PAYLOAD_OCTETS }
    ensures fits { result ≤ MAX_PLAIN }
    ensures short { result ≤ length payload.now + 5 }
    ensures plain { take result buffer.new ≡ esp_plaintext payload.now next_header }
{
    let end = payload.len();
    let pad = 3 - (end + 1) % 4;
    buffer[..end].copy_from_slice(payload);
    buffer[end..end + pad].copy_from_slice(&PADDING[..pad]);
    buffer[end + pad] = pad as u8;
    buffer[end + pad + 1] = next_header;
    end + pad + 2
}
