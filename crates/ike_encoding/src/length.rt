ghost use Rattle.std.specs.Prelude.{◌≡◌, ◌+◌, ◌<◌, ◌^◌, ◌↔◌, IsTrue, false, length, map, min};
ghost use Rattle.ike_values.specs.PayloadView.{payload_value};
ghost use Rattle.ike_values.specs.Writing.{chain_written};
ghost use Rattle.ike_values.specs.Validity.{AreValid};
ghost use Rattle.ike_values.specs.Chains.{HasSpelling};

use ike_values::{HEADER_OCTETS, Payload, Payloads, body_len};

/// Every length that the length field of a header holds is below this.
const LENGTH_END: usize = 4_294_967_296;

/// Whether a header and the payloads are below 2^32 octets long, so that the length field of a
/// message holds their number. The payloads have a spelling (`Payloads::is_valid`).
pub fn fits_message(payloads: &Payloads) -> bool
    requires { HasSpelling payloads.now }
    ensures { IsTrue result ↔ (28 + length (chain_written payloads.now) < 2 ^ 32) }
{
    HEADER_OCTETS + chain_len(payloads.as_slice()) < LENGTH_END
}

fn chain_len(payloads: &[Payload]) -> usize
    requires { AreValid false (map payload_value payloads.now) }
    ensures { result ≡ min 4294967296 (length (chain_written (map payload_value payloads.now))) }
{
    let mut len = 0;
    let mut rest = payloads;
    while let [first, others @ ..] = rest {
        len = (len + 4 + body_len(first)).min(LENGTH_END);
        rest = others;
    }
    len
}
