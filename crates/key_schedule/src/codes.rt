ghost use Rattle.std.specs.Prelude.{◌≡◌, ◌↔◌, IsTrue};
ghost use Rattle.key_schedule.specs.Codes.{auth_code, cookie, difference_of};

use crate::mac::{hmac, hmac_of_parts};

/// The code in the AUTH payload of an end (RFC 5723, section 4.3.3; RFC 7296, section 2.15) under
/// its SK_pi or SK_pr (RFC 5723, section 5.1): `message` is the message that the end sent, `nonce`
/// that of the other end, and `id_body` the end's own identification payload without its header.
pub fn auth_code(sk_p: &[u8; 32], message: &[u8], nonce: &[u8], id_body: &[u8]) -> [u8; 32]
    ensures { result ≡ auth_code sk_p.now message.now nonce.now id_body.now }
{
    let identity_code = hmac(sk_p, id_body);
    hmac_of_parts(sk_p, message, nonce, &identity_code)
}

/// The cookie that a responder sends to an initiator (after RFC 7296, section 2.6).
pub fn cookie(secret: &[u8; 24], ni: &[u8; 32], spii: u64) -> [u8; 32]
    ensures { result ≡ cookie secret.now ni.now spii }
{
    hmac_of_parts(secret, ni, &spii.to_be_bytes(), &[])
}

// No bit where each octet equals the other list's, as far as both lists go.
fn difference(a: &[u8], b: &[u8]) -> u8
    ensures { result ≡ difference_of a.now b.now }
{
    a.iter().zip(b).fold(0, |bits, (x, y)| bits | (*x ^ *y))
}

/// Whether two codes are the same octets. It does not stop at the first that differs.
pub fn equal_codes(a: &[u8], b: &[u8]) -> bool
    ensures { IsTrue result ↔ (a.now ≡ b.now) }
{
    a.len() == b.len() && difference(a, b) == 0
}
