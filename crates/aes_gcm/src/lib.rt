//! AES in Galois/Counter Mode (FIPS 197, NIST SP 800-38D) as IPsec uses it: a key ends with four
//! octets of salt, and the nonce is the salt and an initialization vector of eight octets (RFC
//! 4106, section 4; RFC 5282, section 4). The tag has sixteen octets.
//!
//! The definitions that the contracts cite are `specs/Aes.antt` and `specs/Gcm.antt`. No call takes
//! memory.
#![tactic(auto)]

ghost use Rattle.std.specs.Prelude.{◌≡◌, ◌≤◌, ◌↔◌, List, ℕ, IsTrue, IsSome, IfSome, length};
ghost use Rattle.std.specs.Bool.{OnTrue, OnFalse};
ghost use Rattle.ha_base.specs.KeySizes.{HasKeySize};
ghost use Rattle.aes_gcm.specs.Sealing.{IsSealing};
ghost use Rattle.aes_gcm.specs.Gcm.{cipher_of, encrypted, nonce_of, sealed, tag_of};

mod cipher;
mod columns;
mod counter;
mod expansion;
mod first_round;
mod ghash;
pub mod known_answers;
mod octets;
mod rows;
mod tag;

use crate::cipher::encrypt;
use crate::columns::encrypt_block;
use crate::counter::apply_key_stream;
use crate::expansion::{copied, expand};
use crate::ghash::{hash_tables, load};
use crate::tag::{is_same, tag};
pub use spend_once::{CounterName, Number};
use std::marker::Model;

/// A key with its salt, ready for use: its schedule and hash subkey are made once.
///
/// Contracts see its name and the octets that it was made of.
#[derive(Drop)]
pub struct Key {
    name: CounterName,
    middle_rounds: usize,
    round_keys: [u8; 240],
    salt: [u8; 4],
    hash_tables: [u128; 128],
}

impl Model for Key {
    ghost use Rattle.aes_gcm.specs.NamedKey.{NamedKey};

    ghost Value = { NamedKey };

    ghost use Rattle.aes_gcm.specs.HeldKey.{named_key, IsHeldKey};

    ghost view = { named_key };

    ghost invariant = { IsHeldKey };
}

/// The number of octets that a sealed text, or its associated data, may have at most.
pub const MAX_LEN: usize = 65536;

impl Key {
    /// A key of 16 or 32 octets followed by four octets of salt, or `None` for another length.
    pub fn new(name: CounterName, bytes: &[u8]) -> Option<Key>
        ensures size { IsSome result ↔ HasKeySize bytes.now }
        ensures name { IfSome result (λ key. key.name ≡ name) }
        ensures octets { IfSome result (λ key. key.octets ≡ bytes.now) }
    {
        if bytes.len() != 20 && bytes.len() != 36 {
            return None;
        }
        let (key, salt) = bytes.split_at(bytes.len() - 4);
        let middle_rounds = key.len() / 4 + 5;
        let round_keys = expand(key);
        let subkey = load(&encrypt_block(&round_keys, middle_rounds, &[0; 16]));
        let hash_tables = hash_tables(subkey);
        let salt = copied(salt);
        Some(Key {
            name,
            middle_rounds,
            round_keys,
            salt,
            hash_tables,
        })
    }

    /// The name that the key was made with.
    pub fn name(&self) -> CounterName
        ensures name { result ≡ self.now.name }

        // A key has 16 or 32 octets and the salt four.
        ensures size { HasKeySize self.now.octets }
    {
        self.name
    }

    fn nonce(&self, iv: u64) -> [u8; 12]
        ensures { result ≡ nonce_of self.now.octets iv }
    {
        let mut nonce = [0; 12];
        nonce[..4].copy_from_slice(&self.salt);
        nonce[4..].copy_from_slice(&iv.to_be_bytes());
        nonce
    }

    fn cipher(&self, block: [u8; 16]) -> [u8; 16]
        ensures { result ≡ cipher_of self.now.octets block }
    {
        encrypt(&self.round_keys, self.middle_rounds, block)
    }

    fn stream_into(&self, iv: u64, buf: &mut [u8])
        requires { length buf.old ≤ MAX_LEN }
        ensures streamed { buf.new ≡ encrypted (cipher_of self.now.octets)
            (nonce_of self.now.octets iv) buf.old }

        // Counter mode under a key is its own inverse.
        ensures inverse { (text : List ℕ) → let crypt = encrypted (cipher_of self.now.octets)
            (nonce_of self.now.octets iv) in crypt (crypt text) ≡ text }
    {
        apply_key_stream(&self.round_keys, self.middle_rounds, &self.nonce(iv), buf);
    }

    fn tag(&self, iv: u64, aad: &[u8], ciphertext: &[u8]) -> [u8; 16]
        requires aad_size { length aad.now ≤ MAX_LEN }
        requires size { length ciphertext.now ≤ MAX_LEN }
        ensures tag { result ≡ tag_of self.now.octets iv aad.now ciphertext.now }
        ensures key_size { HasKeySize self.now.octets }
    {
        let nonce = self.nonce(iv);
        tag(
            &self.round_keys,
            self.middle_rounds,
            &self.hash_tables,
            &nonce,
            aad,
            ciphertext,
        )
    }
}

/// Enciphers a block under a key, whose salt plays no part (FIPS 197, section 5.1).
pub fn aes_block(key: &Key, block: [u8; 16]) -> [u8; 16]
    ensures { result ≡ cipher_of key.now.octets block }
{
    key.cipher(block)
}

/// Enciphers `buf` in place and writes its tag, under the number's value as the initialization
/// vector. The number is spent.
pub fn seal_in_place(key: &Key, number: Number, aad: &[u8], buf: &mut [u8], tag: &mut [u8; 16])
    requires named { number.name ≡ key.now.name }
    requires aad_size { length aad.now ≤ MAX_LEN }
    requires size { length buf.old ≤ MAX_LEN }
    ensures ciphertext { buf.new ≡ (sealed key.now.octets number.value aad.now buf.old).ciphertext }
    ensures tag { tag.new ≡ (sealed key.now.octets number.value aad.now buf.old).tag }

    // With it `sealing_laws` says how long both are.
    ensures key_size { HasKeySize key.now.octets }
{
    let iv = number.value();
    number.burn();
    key.stream_into(iv, buf);
    *tag = key.tag(iv, aad, buf);
}

/// Deciphers `buf` in place where `tag` is its tag, and answers whether it is. Otherwise `buf`
/// stays as it was.
pub fn open_in_place(key: &Key, iv: u64, aad: &[u8], buf: &mut [u8], tag: &[u8; 16]) -> bool
    requires aad_size { length aad.now ≤ MAX_LEN }
    requires size { length buf.old ≤ MAX_LEN }
    ensures exact { IsTrue result ↔ (tag.now ≡ tag_of key.now.octets iv aad.now buf.old) }
    ensures opened { OnTrue result (sealed key.now.octets iv aad.now buf.new
        ≡ record { ciphertext = buf.old; tag = tag.now }) }
    ensures refused { OnFalse result (buf.new ≡ buf.old) }

    // What was sealed is opened, and gives the plaintext.
    ensures unsealed { (plain : List ℕ) → sealed key.now.octets iv aad.now plain
        ≡ record { ciphertext = buf.old; tag = tag.now } → IsTrue result × (buf.new ≡ plain) }
    ensures key_size { HasKeySize key.now.octets }
{
    if !is_same(tag, &key.tag(iv, aad, buf)) {
        return false;
    }
    key.stream_into(iv, buf);
    true
}

/// Sealing under a key of either size keeps the length of the text, makes a tag of sixteen octets,
/// and loses nothing of the text. This call does nothing; its contract is the law.
pub fn sealing_laws()
    ensures { (octets : List ℕ) → HasKeySize octets → IsSealing octets }
{}
