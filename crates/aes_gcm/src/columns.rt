//! The cipher by tables (FIPS 197, section 5.1). A state is four words, one for each column, with
//! the octet of row 0 lowest.

ghost use Rattle.std.specs.Prelude.{◌≡◌, ◌*◌, ◌/◌, ◌%◌, ◌^◌, ◌<◌, ◌≤◌, ◌++◌, ◌∷◌, [], slice_index, List, ℕ};
ghost use Rattle.std.specs.Int.{w32, to_le_bytes};
ghost use Rattle.aes_gcm.specs.Aes.{cipher, mix_column, mix_columns, round_key, rounds, shift_rows, sub_byte, sub_bytes, word, xored};
ghost use Rattle.aes_gcm.specs.Columns.{column_octets};

use crate::rows::ROWS;

/// The word number `i` of a key schedule.
#[inline(always)]
pub(crate) fn key_word(words: &[u8; 240], i: usize) -> u32
    requires { i < 60 }
    ensures { to_le_bytes w32 result ≡ word words.now i }
{
    u32::from_le_bytes([
        words[4 * i],
        words[4 * i + 1],
        words[4 * i + 2],
        words[4 * i + 3],
    ])
}

/// The columns of a block.
#[inline(always)]
pub(crate) fn load(block: &[u8; 16]) -> [u32; 4]
    ensures { column_octets result ≡ block.now }
{
    [
        u32::from_le_bytes([block[0], block[1], block[2], block[3]]),
        u32::from_le_bytes([block[4], block[5], block[6], block[7]]),
        u32::from_le_bytes([block[8], block[9], block[10], block[11]]),
        u32::from_le_bytes([block[12], block[13], block[14], block[15]]),
    ]
}

/// Joins a state with the round key number `round`.
#[inline(always)]
pub(crate) fn add_round_key(s: &[u32; 4], round_keys: &[u8; 240], round: usize) -> [u32; 4]
    requires { round ≤ 14 }
    ensures { column_octets result ≡ xored (column_octets s.now) (round_key round_keys.now round) }
{
    [
        s[0] ^ key_word(round_keys, 4 * round),
        s[1] ^ key_word(round_keys, 4 * round + 1),
        s[2] ^ key_word(round_keys, 4 * round + 2),
        s[3] ^ key_word(round_keys, 4 * round + 3),
    ]
}

/// A column of the next state, whose octets before SubBytes are row 0 of `a`, row 1 of `b`, row 2
/// of `c` and row 3 of `d`.
#[inline(always)]
fn mixed_column(a: u32, b: u32, c: u32, d: u32) -> u32
    ensures { to_le_bytes w32 result ≡ mix_column (sub_byte (a % 256)) (sub_byte (b / 2 ^ 8 % 256))
        (sub_byte (c / 2 ^ 16 % 256)) (sub_byte (d / 2 ^ 24 % 256)) }
{
    ROWS[a as usize % 256]
        ^ ROWS[256 + (b >> 8) as usize % 256]
        ^ ROWS[512 + (c >> 16) as usize % 256]
        ^ ROWS[768 + (d >> 24) as usize % 256]
}

#[inline(always)]
pub(crate) fn middle_round(s: &[u32; 4], round_keys: &[u8; 240], round: usize) -> [u32; 4]
    requires { round ≤ 14 }
    ensures { column_octets result ≡ xored (mix_columns
        (shift_rows (sub_bytes (column_octets s.now)))) (round_key round_keys.now round) }
{
    let mixed = [
        mixed_column(s[0], s[1], s[2], s[3]),
        mixed_column(s[1], s[2], s[3], s[0]),
        mixed_column(s[2], s[3], s[0], s[1]),
        mixed_column(s[3], s[0], s[1], s[2]),
    ];
    add_round_key(&mixed, round_keys, round)
}

/// A column of the last round, which mixes none. Each table has the substituted octet itself at the
/// place that is taken of it.
#[inline(always)]
fn column(a: u32, b: u32, c: u32, d: u32) -> u32
    ensures { to_le_bytes w32 result ≡ sub_byte (a % 256) ∷ sub_byte (b / 2 ^ 8 % 256)
        ∷ sub_byte (c / 2 ^ 16 % 256) ∷ sub_byte (d / 2 ^ 24 % 256) ∷ [] }
{
    (ROWS[512 + a as usize % 256] & 0xff)
        ^ (ROWS[768 + (b >> 8) as usize % 256] & 0xff00)
        ^ (ROWS[(c >> 16) as usize % 256] & 0xff0000)
        ^ (ROWS[256 + (d >> 24) as usize % 256] & 0xff000000)
}

#[inline(always)]
fn last_round(s: &[u32; 4], round_keys: &[u8; 240], round: usize) -> [u32; 4]
    requires { round ≤ 14 }
    ensures { column_octets result ≡ xored (shift_rows (sub_bytes (column_octets s.now)))
        (round_key round_keys.now round) }
{
    let shifted = [
        column(s[0], s[1], s[2], s[3]),
        column(s[1], s[2], s[3], s[0]),
        column(s[2], s[3], s[0], s[1]),
        column(s[3], s[0], s[1], s[2]),
    ];
    add_round_key(&shifted, round_keys, round)
}

/// The block of a state.
#[inline(always)]
fn store(s: &[u32; 4]) -> [u8; 16]
    ensures { result ≡ column_octets s.now }
{
    let (a, b) = (s[0].to_le_bytes(), s[1].to_le_bytes());
    let (c, d) = (s[2].to_le_bytes(), s[3].to_le_bytes());
    [
        a[0], a[1], a[2], a[3], b[0], b[1], b[2], b[3], c[0], c[1], c[2], c[3], d[0], d[1], d[2],
        d[3],
    ]
}

/// Enciphers a block whose state after its first `from` rounds is `state`.
#[inline(always)]
pub(crate) fn remaining_rounds(
    state: [u32; 4],
    round_keys: &[u8; 240],
    from: usize,
    middle_rounds: usize,
) -> [u8; 16]
    requires from { from ≤ middle_rounds }
    requires rounds { middle_rounds ≤ 13 }
    ensures { (block : List ℕ) → column_octets state ≡ rounds round_keys.now block from
        → result ≡ cipher round_keys.now middle_rounds block }
{
    let mut state = state;
    for pair in 0..(middle_rounds - from) / 2 {
        let first = middle_round(&state, round_keys, from + 2 * pair + 1);
        let second = middle_round(&first, round_keys, from + 2 * pair + 2);
        state = second;
    }
    if (middle_rounds - from) % 2 == 1 {
        let mixed = middle_round(&state, round_keys, middle_rounds);
        return store(&last_round(&mixed, round_keys, middle_rounds + 1));
    }
    store(&last_round(&state, round_keys, middle_rounds + 1))
}

/// Enciphers a block in `middle_rounds` rounds that mix columns and one that does not.
pub(crate) fn encrypt_block(
    round_keys: &[u8; 240],
    middle_rounds: usize,
    block: &[u8; 16],
) -> [u8; 16]
    requires { middle_rounds ≤ 13 }
    ensures { result ≡ cipher round_keys.now middle_rounds block.now }
{
    let state = add_round_key(&load(block), round_keys, 0);
    remaining_rounds(state, round_keys, 0, middle_rounds)
}
