//! The first round over counter blocks (FIPS 197, section 5.1). The blocks of one nonce with
//! counters below 2^16 differ in their last two octets alone, so most of it is done once.

ghost use Rattle.std.specs.Prelude.{◌≡◌, ◌/◌, ◌%◌, ◌^◌, ◌<◌, ◌≤◌, List, ℕ};
ghost use Rattle.std.specs.Int.{w32, to_be_bytes, to_le_bytes};
ghost use Rattle.aes_gcm.specs.Aes.{cipher, sub_byte, word, xored};
ghost use Rattle.aes_gcm.specs.Columns.{IsBegun, column_octets, from_last_octets, from_row_2, from_row_3};
ghost use Rattle.aes_gcm.specs.Gcm.{counter_block};

use crate::columns::{add_round_key, key_word, load, middle_round, remaining_rounds};
use crate::counter::counter_block;
use crate::rows::ROWS;

/// What the octet in row 2 of a column adds to another.
#[inline(always)]
fn row_2(column: u32) -> u32
    ensures { to_le_bytes w32 result ≡ from_row_2 (sub_byte (column / 2 ^ 16 % 256)) }
{
    ROWS[512 + (column >> 16) as usize % 256]
}

/// What the octet in row 3 of a column adds to another.
#[inline(always)]
fn row_3(column: u32) -> u32
    ensures { to_le_bytes w32 result ≡ from_row_3 (sub_byte (column / 2 ^ 24 % 256)) }
{
    ROWS[768 + (column >> 24) as usize % 256]
}

/// Joins a state after a round with what the last two octets of `last`, its fourth column before
/// the round, add to it. Done twice it changes nothing.
#[inline(always)]
fn toggle_last_octets(s: &[u32; 4], last: u32) -> [u32; 4]
    ensures { column_octets result ≡ xored (column_octets s.now)
        (from_last_octets (last / 2 ^ 16 % 256) (last / 2 ^ 24 % 256)) }
{
    [s[0] ^ row_3(last), s[1] ^ row_2(last), s[2], s[3]]
}

/// The fourth column of the state before the first round.
#[inline(always)]
fn last_column(round_keys: &[u8; 240], counter: u32) -> u32
    ensures { to_le_bytes w32 result ≡ xored (to_be_bytes w32 counter) (word round_keys.now 3) }
{
    u32::from_le_bytes(counter.to_be_bytes()) ^ key_word(round_keys, 3)
}

/// The state after the first round over the counter blocks of a nonce, without what the octets add
/// that differ.
pub(crate) fn begin_counters(round_keys: &[u8; 240], nonce: &[u8; 12]) -> [u32; 4]
    ensures { IsBegun round_keys.now nonce.now result }
{
    let state = add_round_key(&load(&counter_block(nonce, 0)), round_keys, 0);
    let first = middle_round(&state, round_keys, 1);
    toggle_last_octets(&first, last_column(round_keys, 0))
}

/// Enciphers the counter block of the nonce that `begun` was made for.
pub(crate) fn encrypt_counter(
    round_keys: &[u8; 240],
    middle_rounds: usize,
    begun: &[u32; 4],
    counter: u32,
) -> [u8; 16]
    requires first { 1 ≤ middle_rounds }
    requires rounds { middle_rounds ≤ 13 }
    requires counter { counter < 2 ^ 16 }
    ensures { (nonce : List ℕ) → IsBegun round_keys.now nonce begun.now
        → result ≡ cipher round_keys.now middle_rounds (counter_block nonce counter) }
{
    let state = toggle_last_octets(begun, last_column(round_keys, counter));
    remaining_rounds(state, round_keys, 1, middle_rounds)
}
