//! AES-GCM by the plainest bodies: a block of counter mode at a time over the cipher octet by
//! octet, and GHASH bit by bit (NIST SP 800-38D, sections 6.3 to 6.5 and 7.1). It defines nothing:
//! the sealing by tables is compared with it.

ghost use Rattle.std.specs.Prelude.{◌≤◌, length};

use aes_gcm::{Key, MAX_LEN, aes_block};

/// What x^128 is modulo the field's polynomial: 1 + x + x^2 + x^7, whose first coefficient is the
/// highest bit.
const REDUCTION: u128 = 0xe1 << 120;

// the product of two elements of the field
fn product(element: u128, subkey: u128) -> u128 {
    let mut sum = 0;
    let mut power = subkey;
    for place in 0..128u32 {
        if (element >> (127 - place)) % 2 == 1 {
            sum ^= power;
        }
        power = if power % 2 == 1 {
            (power >> 1) ^ REDUCTION
        } else {
            power >> 1
        };
    }
    sum
}

// hashes the blocks of `octets`, the last of them completed by zeros, onto `start`
fn hash_onto(subkey: u128, start: u128, octets: &[u8]) -> u128 {
    let mut sum = start;
    for i in 0..octets.len().div_ceil(16) {
        let end = octets.len().min(16 * i + 16);
        let mut block = [0; 16];
        block[..end - 16 * i].copy_from_slice(&octets[16 * i..end]);
        sum = product(sum ^ u128::from_be_bytes(block), subkey);
    }
    sum
}

// the counter block of this count under the nonce
fn counter_block(nonce: &[u8; 12], count: u32) -> [u8; 16] {
    let mut block = [0; 16];
    block[..12].copy_from_slice(nonce);
    block[12..].copy_from_slice(&count.to_be_bytes());
    block
}

// joins the key stream of the counts from 2 on to the octets
fn join_stream(key: &Key, nonce: &[u8; 12], buf: &mut [u8])
    requires { length buf.old ≤ MAX_LEN }
{
    let mut stream = [0; 16];
    for i in 0..buf.len() {
        if i % 16 == 0 {
            stream = aes_block(key, counter_block(nonce, (i / 16 + 2) as u32));
        }
        buf[i] ^= stream[i % 16];
    }
}

/// Enciphers `buf` in place and answers its tag.
pub fn seal(key: &Key, nonce: &[u8; 12], aad: &[u8], buf: &mut [u8]) -> [u8; 16]
    requires aad_size { length aad.now ≤ MAX_LEN }
    requires size { length buf.old ≤ MAX_LEN }
{
    join_stream(key, nonce, buf);
    let subkey = u128::from_be_bytes(aes_block(key, [0; 16]));
    let bits = ((aad.len() as u128 * 8) << 64) + buf.len() as u128 * 8;
    let hashed = hash_onto(subkey, hash_onto(subkey, 0, aad), buf);
    let mask = u128::from_be_bytes(aes_block(key, counter_block(nonce, 1)));
    (product(hashed ^ bits, subkey) ^ mask).to_be_bytes()
}
