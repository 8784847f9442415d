ghost use Rattle.std.specs.Prelude.{◌≡◌, ◌≤◌, length};
ghost use Rattle.esp_packets.specs.Packet.{esp_associated_data, header};

/// How many octets stand before the ciphertext.
pub const HEADER: usize = 16;

/// How many octets the integrity check value has.
pub const CHECK_VALUE: usize = 16;

/// How many octets a packet has at least: its header, pad length, next header and integrity check
/// value.
pub const SHORTEST_PACKET: usize = 34;

/// How many octets a packet that is opened may have.
pub const LONGEST_PACKET: usize = 65_536;

pub fn associated(spi: u32, number: u64) -> [u8; 12]
    ensures { result ≡ esp_associated_data spi number }
{
    let mut octets = [0; 12];
    octets[..4].copy_from_slice(&spi.to_be_bytes());
    octets[4..].copy_from_slice(&number.to_be_bytes());
    octets
}

pub fn header_octets(spi: u32, number: u64, iv: u64) -> [u8; HEADER]
    ensures { result ≡ header spi number iv }
{
    let mut octets = [0; HEADER];
    octets[..4].copy_from_slice(&spi.to_be_bytes());
    octets[4..8].copy_from_slice(&number.to_be_bytes()[4..]);
    octets[8..].copy_from_slice(&iv.to_be_bytes());
    octets
}

pub fn check_value(octets: &[u8]) -> [u8; CHECK_VALUE]
    requires { length octets.now ≡ CHECK_VALUE }
    ensures { result ≡ octets.now }
{
    let mut copy = [0; CHECK_VALUE];
    copy.copy_from_slice(octets);
    copy
}
