ghost use Rattle.std.specs.Prelude.{◌≡◌, ◌≤◌, length};
ghost use Rattle.key_schedule.specs.PrfPlus.{prf_plus};

use crate::mac::hmac_of_parts;

/// How many octets HMAC with SHA-256 gives.
const CODE: usize = 32;

/// Fills `out` with the first octets of prf+ (RFC 7296, section 2.13), of which there are 255
/// blocks of 32.
pub fn prf_plus(key: &[u8], seed: &[u8], out: &mut [u8])
    requires { length out.old ≤ 8160 }
    ensures { out.new ≡ prf_plus key.now seed.now (length out.old) }
{
    let len = out.len();
    let mut block = [0; CODE];
    'pieces: for i in 0..len.div_ceil(CODE) {
        let start = CODE * i;
        let end = len.min(start + CODE);
        // Before the first block there is none.
        let previous = &block[..start.min(CODE)];
        let next = hmac_of_parts(key, previous, seed, &[(i + 1) as u8]);
        out[start..end].copy_from_slice(&next[..end - start]);
        block = next;
    }
}
