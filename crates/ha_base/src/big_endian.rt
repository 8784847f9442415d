ghost use Rattle.std.specs.Prelude.{◌≡◌, length};
ghost use Rattle.std.specs.Int.{w32, w64, from_be_bytes, to_be_bytes};

/// The number that four octets spell, the highest first.
pub fn read_u32(octets: &[u8]) -> u32
    requires { length octets.now ≡ 4 }
    ensures value { result ≡ from_be_bytes w32 octets.now }
    ensures spelled { to_be_bytes w32 result ≡ octets.now }
{
    u32::from_be_bytes([octets[0], octets[1], octets[2], octets[3]])
}

/// The number that eight octets spell, the highest first.
pub fn read_u64(octets: &[u8]) -> u64
    requires { length octets.now ≡ 8 }
    ensures value { result ≡ from_be_bytes w64 octets.now }
    ensures spelled { to_be_bytes w64 result ≡ octets.now }
{
    let mut copy = [0; 8];
    copy.copy_from_slice(octets);
    u64::from_be_bytes(copy)
}
