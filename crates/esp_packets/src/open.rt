ghost use Rattle.std.specs.Prelude.{◌≡◌, ◌+◌, ◌%◌, ◌^◌, ◌<◌, ◌≤◌, List, ℕ, IfOk, MatchOption};
ghost use Rattle.std.specs.Prelude.{length, take, drop};
ghost use Rattle.std.specs.Int.{w32, to_be_bytes};
ghost use Rattle.std.specs.Bool.{OnTrue, OnFalse};
ghost use Rattle.esp_packets.specs.Packet.{IsEspAnswer, IsPacket, OpensPacket, opened, iv_of, spi_of};
ghost use Rattle.esp_packets.specs.Answers.{IsNumberAnswer, IsPlainAnswer};

use super::packet::{
    CHECK_VALUE, HEADER, LONGEST_PACKET, SHORTEST_PACKET, associated, check_value,
};
use aes_gcm::{Key, open_in_place, sealing_laws};
use ha_base::{EspDrop, EspOpened, read_u32, read_u64};
use replay_set::{Judgement, ReplaySet};

/// The SPI of a packet. None exactly where it is shorter than any packet.
pub fn packet_spi(bytes: &[u8]) -> Option<u32>
    ensures { MatchOption result (length bytes.now < SHORTEST_PACKET)
        (λ spi. (SHORTEST_PACKET ≤ length bytes.now) × (spi ≡ spi_of bytes.now)) }
{
    if bytes.len() < SHORTEST_PACKET {
        return None;
    }
    Some(read_u32(&bytes[..4]))
}

/// Opens in place a packet of at most 65,536 octets that came to this SPI, and tells where its
/// payload lies (RFC 4303, section 3.4).
///
/// The error is the first check that fails. After an error the octets are as they were, but where
/// it is the last check, that of the pad length: then the plaintext stands in them.
pub fn open_packet(
    key: &Key,
    spi: u32,
    set: &ReplaySet,
    bytes: &mut [u8],
) -> Result<EspOpened, EspDrop>
    requires { length bytes.old ≤ LONGEST_PACKET }
    ensures answer { IsEspAnswer key.now.octets spi set.now bytes.old result bytes.new }
    ensures within { IfOk result (λ packet. packet.start + packet.length ≤ length bytes.new) }
{
    if bytes.len() < SHORTEST_PACKET {
        return Err(EspDrop::Short);
    }
    if read_u32(&bytes[..4]) != spi {
        return Err(EspDrop::WrongSpi);
    }
    let number = fresh_number(set, read_u32(&bytes[4..8]))?;
    if !open_text(key, spi, number, bytes) {
        return Err(EspDrop::NotOpened);
    }
    accepted(number, &bytes[HEADER..bytes.len() - CHECK_VALUE])
}

/// The number that is meant, where it was not received.
fn fresh_number(set: &ReplaySet, low32: u32) -> Result<u64, EspDrop>
    ensures { IsNumberAnswer set.now low32 result }
{
    let number = set.meant(low32).ok_or(EspDrop::Stale)?;
    match set.judge(number) {
        Judgement::Stale => Err(EspDrop::Stale),
        Judgement::Seen => Err(EspDrop::Seen),
        Judgement::Fresh => Ok(number),
    }
}

/// Opens the ciphertext in place, and answers whether its integrity check value holds.
fn open_text(key: &Key, spi: u32, number: u64, bytes: &mut [u8]) -> bool
    requires long { SHORTEST_PACKET ≤ length bytes.old }
    requires named { to_be_bytes w32 spi ≡ take 4 bytes.old }
    requires low_half { to_be_bytes w32 (number % 2 ^ 32) ≡ take 4 (drop 4 bytes.old) }
    requires size { length bytes.old ≤ LONGEST_PACKET }
    ensures opened { OnTrue result ((plain : List ℕ)
        × OpensPacket key.now.octets spi number bytes.old plain
        × (length plain + 32 ≡ length bytes.old) × (bytes.new ≡ opened bytes.old plain)) }
    ensures refused { OnFalse result ((bytes.new ≡ bytes.old)
        × ((plain : List ℕ) → ¬ IsPacket key.now.octets spi number
        (iv_of bytes.old) plain bytes.old)) }
{
    // Sealing keeps lengths, so a packet has its parts in one way only.
    sealing_laws();
    let end = bytes.len() - CHECK_VALUE;
    let tag = check_value(&bytes[end..]);
    let iv = read_u64(&bytes[8..HEADER]);
    open_in_place(
        key,
        iv,
        &associated(spi, number),
        &mut bytes[HEADER..end],
        &tag,
    )
}

/// A packet of this number by its plaintext, where the pad length fits it.
fn accepted(number: u64, plain: &[u8]) -> Result<EspOpened, EspDrop>
    requires { 2 ≤ length plain.now }
    ensures { IsPlainAnswer number plain.now result }
{
    let pad = usize::from(plain[plain.len() - 2]);
    let next_header = plain[plain.len() - 1];
    if plain.len() < pad + 2 {
        return Err(EspDrop::Padding);
    }
    Ok(EspOpened {
        number,
        next_header,
        start: HEADER,
        length: plain.len() - 2 - pad,
    })
}
