//! Octet strings joined by exclusive or.

ghost use Rattle.std.specs.Prelude.{◌≡◌, ◌≤◌, length};
ghost use Rattle.aes_gcm.specs.Aes.{xored};

use std::simd::prelude::*;

/// Exclusive-ors each octet of `buf` with the one at its place in `mask`, which is at least as
/// long.
#[inline(always)]
pub(crate) fn xor_into(buf: &mut [u8], mask: &[u8])
    requires { length buf.old ≤ length mask.now }
    ensures { buf.new ≡ xored buf.old mask.now }
{
    for i in 0..buf.len() {
        buf[i] ^= mask[i];
    }
}

/// Exclusive-ors two blocks of sixteen octets, each at once.
#[inline(always)]
pub(crate) fn xor_lanes(buf: &mut [u8], mask: &[u8; 32])
    requires { length buf.old ≡ 32 }
    ensures { buf.new ≡ xored buf.old mask.now }
{
    let lanes = u8x32::from_slice(buf) ^ u8x32::from_slice(mask);
    lanes.copy_to_slice(buf);
}
