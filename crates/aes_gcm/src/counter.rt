//! Counter mode (NIST SP 800-38D, sections 6.5 and 7.1) for a nonce of 96 bits.

ghost use Rattle.std.specs.Prelude.{◌≡◌, ◌+◌, ◌*◌, ◌<◌, ◌≤◌, ◌++◌, List, ℕ, length};
ghost use Rattle.aes_gcm.specs.Aes.{cipher};
ghost use Rattle.aes_gcm.specs.Columns.{IsBegun};
ghost use Rattle.aes_gcm.specs.Gcm.{counter_block, encrypted};

use crate::MAX_LEN;
use crate::first_round::{begin_counters, encrypt_counter};
use crate::octets::{xor_into, xor_lanes};

#[inline(always)]
pub(crate) fn counter_block(nonce: &[u8; 12], counter: u32) -> [u8; 16]
    ensures { result ≡ counter_block nonce.now counter }
{
    let mut block = [0; 16];
    block[..12].copy_from_slice(nonce);
    block[12..].copy_from_slice(&counter.to_be_bytes());
    block
}

/// The blocks number `2 * pair` and `2 * pair + 1` of the key stream, counted from 0, of the nonce
/// that `begun` was made for.
#[inline(always)]
fn two_blocks(
    round_keys: &[u8; 240],
    middle_rounds: usize,
    begun: &[u32; 4],
    pair: usize,
) -> [u8; 32]
    requires first { 1 ≤ middle_rounds }
    requires rounds { middle_rounds ≤ 13 }
    requires pair { 32 * pair ≤ MAX_LEN }
    ensures { (nonce : List ℕ) → IsBegun round_keys.now nonce begun.now
        → result ≡ cipher round_keys.now middle_rounds (counter_block nonce (2 * pair + 2))
        ++ cipher round_keys.now middle_rounds (counter_block nonce (2 * pair + 3)) }
{
    let first = encrypt_counter(round_keys, middle_rounds, begun, 2 * pair as u32 + 2);
    let second = encrypt_counter(round_keys, middle_rounds, begun, 2 * pair as u32 + 3);
    let mut blocks = [0; 32];
    blocks[..16].copy_from_slice(&first);
    blocks[16..].copy_from_slice(&second);
    blocks
}

/// Exclusive-ors the key stream into `buf`, which enciphers a plaintext and deciphers a ciphertext.
pub(crate) fn apply_key_stream(
    round_keys: &[u8; 240],
    middle_rounds: usize,
    nonce: &[u8; 12],
    buf: &mut [u8],
)
    requires first { 1 ≤ middle_rounds }
    requires rounds { middle_rounds ≤ 13 }
    requires size { length buf.old ≤ MAX_LEN }
    ensures { buf.new ≡ encrypted (cipher round_keys.now middle_rounds) nonce.now buf.old }
{
    let begun = begin_counters(round_keys, nonce);
    let len = buf.len();
    let whole = len / 32;
    for i in 0..whole {
        let pad = two_blocks(round_keys, middle_rounds, &begun, i);
        xor_lanes(&mut buf[32 * i..32 * i + 32], &pad);
    }
    if 32 * whole < len {
        let last = two_blocks(round_keys, middle_rounds, &begun, whole);
        xor_into(&mut buf[32 * whole..len], &last);
    }
}
