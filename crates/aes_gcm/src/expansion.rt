//! The key expansion of AES (FIPS 197, section 5.2), for keys of four and of eight words.

ghost use Rattle.std.specs.Prelude.{◌≡◌, ◌+◌, ◌-◌, ◌*◌, ◌/◌, ◌<◌, ◌≤◌, ◌⊎◌, length, take};
ghost use Rattle.aes_gcm.specs.Aes.{changed_word, rot_word, round_constant, schedule, word, xored};

use crate::cipher::sub_bytes;
use crate::octets::xor_into;

/// The powers of x in GF(2^8) from x^0 on (FIPS 197, section 5.2).
const POWERS_OF_X: [u8; 10] = [0x01, 0x02, 0x04, 0x08, 0x10, 0x20, 0x40, 0x80, 0x1b, 0x36];

/// The round constant number `j`, counted from 1.
fn round_constant(j: usize) -> [u8; 4]
    requires from_one { 0 < j }
    requires to_ten { j ≤ 10 }
    ensures { result ≡ round_constant j }
{
    [POWERS_OF_X[j - 1], 0, 0, 0]
}

fn rot_word(word: &[u8]) -> [u8; 4]
    requires { length word.now ≡ 4 }
    ensures { result ≡ rot_word word.now }
{
    [word[1], word[2], word[3], word[0]]
}

/// The word number `i` of a key schedule.
fn word(words: &[u8; 240], i: usize) -> &[u8]
    requires { i < 60 }
    ensures word { result.now ≡ word words.now i }
    ensures len { length result.now ≡ 4 }
{
    &words[4 * i..4 * i + 4]
}

pub(crate) fn copied(word: &[u8]) -> [u8; 4]
    requires { length word.now ≡ 4 }
    ensures { result ≡ word.now }
{
    let mut copy = [0; 4];
    copy.copy_from_slice(word);
    copy
}

/// What word `i` adds to the word `nk` before it.
fn changed_word(nk: usize, i: usize, before: &[u8]) -> [u8; 4]
    requires key_words { (nk ≡ 4) ⊎ (nk ≡ 8) }
    requires after_key { nk ≤ i }
    requires in_schedule { i < 4 * (nk + 7) }
    requires word { length before.now ≡ 4 }
    ensures { result ≡ changed_word nk i before.now }
{
    if i % nk == 0 {
        let mut changed = rot_word(before);
        sub_bytes(&mut changed);
        xor_into(&mut changed, &round_constant(i / nk));
        changed
    } else if nk > 6 && i % nk == 4 {
        let mut changed = copied(before);
        sub_bytes(&mut changed);
        changed
    } else {
        copied(before)
    }
}

fn next_word(words: &[u8; 240], nk: usize, i: usize) -> [u8; 4]
    requires key_words { (nk ≡ 4) ⊎ (nk ≡ 8) }
    requires after_key { nk ≤ i }
    requires in_schedule { i < 4 * (nk + 7) }
    ensures { result ≡ xored (word words.now (i - nk))
        (changed_word nk i (word words.now (i - 1))) }
{
    let mut next = copied(word(words, i - nk));
    xor_into(&mut next, &changed_word(nk, i, word(words, i - 1)));
    next
}

/// A key followed by zeros.
fn begun(key: &[u8]) -> [u8; 240]
    requires { length key.now ≤ 240 }
    ensures { take (length key.now) result ≡ key.now }
{
    let mut words = [0; 240];
    words[..key.len()].copy_from_slice(key);
    words
}

/// The key schedule of a key of 16 or 32 octets, followed by zeros in the first case.
pub(crate) fn expand(key: &[u8]) -> [u8; 240]
    requires { (length key.now ≡ 16) ⊎ (length key.now ≡ 32) }
    ensures { take (16 * (length key.now / 4 + 7)) result ≡ schedule key.now }
{
    let mut words = begun(key);
    let nk = key.len() / 4;
    for i in nk..4 * (nk + 7) {
        let next = next_word(&words, nk, i);
        words[4 * i..4 * i + 4].copy_from_slice(&next);
    }
    words
}
