//! The tag over associated data and ciphertext (NIST SP 800-38D, section 7.1).

ghost use Rattle.std.specs.Prelude.{◌≡◌, ◌*◌, ◌≤◌, ◌++◌, ◌↔◌, IsTrue, length, slice_index};
ghost use Rattle.std.specs.Int.{w64, to_be_bytes};
ghost use Rattle.aes_gcm.specs.Aes.{cipher};
ghost use Rattle.aes_gcm.specs.Gcm.{ghash, hash_subkey, hashed_text, tag_under};
ghost use Rattle.aes_gcm.specs.HashTables.{IsHashTable};

use crate::MAX_LEN;
use crate::columns::encrypt_block;
use crate::counter::counter_block;
use crate::ghash::hash_onto;
use crate::octets::xor_into;

/// The block of the two lengths, which are given in octets and written in bits.
fn length_block(aad: usize, ciphertext: usize) -> [u8; 16]
    requires aad { aad ≤ MAX_LEN }
    requires ciphertext { ciphertext ≤ MAX_LEN }
    ensures { result ≡ to_be_bytes w64 (8 * aad) ++ to_be_bytes w64 (8 * ciphertext) }
{
    let mut block = [0; 16];
    block[..8].copy_from_slice(&(8 * aad as u64).to_be_bytes());
    block[8..].copy_from_slice(&(8 * ciphertext as u64).to_be_bytes());
    block
}

fn hash(tables: &[u128; 128], aad: &[u8], ciphertext: &[u8]) -> u128
    requires tables { IsHashTable tables.now }
    requires aad_size { length aad.now ≤ MAX_LEN }
    requires size { length ciphertext.now ≤ MAX_LEN }
    ensures { result ≡ ghash (slice_index tables.now 8) (hashed_text aad.now ciphertext.now) }
{
    let hashed = hash_onto(tables, hash_onto(tables, 0, aad), ciphertext);
    hash_onto(tables, hashed, &length_block(aad.len(), ciphertext.len()))
}

/// The tag under the key schedule `round_keys`, whose hash subkey's products are `tables`.
pub(crate) fn tag(
    round_keys: &[u8; 240],
    middle_rounds: usize,
    tables: &[u128; 128],
    nonce: &[u8; 12],
    aad: &[u8],
    ciphertext: &[u8],
) -> [u8; 16]
    requires rounds { middle_rounds ≤ 13 }
    requires tables { IsHashTable tables.now }
    requires hash_subkey { slice_index tables.now 8
        ≡ hash_subkey (cipher round_keys.now middle_rounds) }
    requires aad_size { length aad.now ≤ MAX_LEN }
    requires size { length ciphertext.now ≤ MAX_LEN }
    ensures { result ≡ tag_under
        (cipher round_keys.now middle_rounds) nonce.now aad.now ciphertext.now }
{
    let mut tag = encrypt_block(round_keys, middle_rounds, &counter_block(nonce, 1));
    xor_into(&mut tag, &hash(tables, aad, ciphertext).to_be_bytes());
    tag
}

/// Whether two tags are the same. Each octet is looked at, whatever the ones before it are.
pub(crate) fn is_same(a: &[u8; 16], b: &[u8; 16]) -> bool
    ensures { IsTrue result ↔ (a.now ≡ b.now) }
{
    let mut apart = 0;
    for i in 0..16 {
        apart |= a[i] ^ b[i];
    }
    apart == 0
}
