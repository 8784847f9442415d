ghost use Rattle.std.specs.Prelude.{◌≡◌, ◌≤◌, ◌++◌, length};
ghost use Rattle.key_schedule.specs.Hmac.{padded_block, block_key, masked_octets, hmac};

use sha2::{Digest, Sha256};

/// How many octets SHA-256 takes in at once, B of RFC 2104.
const BLOCK: usize = 64;

const INNER_PAD: u8 = 0x36;

const OUTER_PAD: u8 = 0x5c;

// At most a block of octets, with zeros after them.
fn padded(octets: &[u8]) -> [u8; BLOCK]
    requires { length octets.now ≤ 64 }
    ensures { result ≡ padded_block octets.now }
{
    let mut block = [0; BLOCK];
    let len = octets.len();
    block[..len].copy_from_slice(octets);
    block
}

fn block_key(key: &[u8]) -> [u8; BLOCK]
    ensures { result ≡ block_key key.now }
{
    if key.len() <= BLOCK {
        padded(key)
    } else {
        let digest = Sha256::digest(key);
        padded(&digest)
    }
}

fn masked_octets(block: &[u8; BLOCK], mask: u8) -> [u8; BLOCK]
    ensures { result ≡ masked_octets mask block.now }
{
    let mut out = *block;
    for octet in out.iter_mut() {
        *octet ^= mask;
    }
    out
}

/// The code of three pieces that are taken as one text.
pub fn hmac_of_parts(key: &[u8], first: &[u8], second: &[u8], third: &[u8]) -> [u8; 32]
    ensures { result ≡ hmac key.now (first.now ++ second.now ++ third.now) }
{
    let block = block_key(key);
    let inner_block = masked_octets(&block, INNER_PAD);
    let mut inner = Sha256::new();
    inner.update(&inner_block);
    inner.update(first);
    inner.update(second);
    inner.update(third);
    let inner_digest = inner.finalize();
    let outer_block = masked_octets(&block, OUTER_PAD);
    let mut outer = Sha256::new();
    outer.update(&outer_block);
    outer.update(&inner_digest);
    outer.finalize()
}

/// The authentication code of `text` under `key` by HMAC with SHA-256 (RFC 2104, section 2).
pub fn hmac(key: &[u8], text: &[u8]) -> [u8; 32]
    ensures { result ≡ hmac key.now text.now }
{
    hmac_of_parts(key, text, &[], &[])
}
