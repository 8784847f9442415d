//! Errors that a response tells (RFC 7296, section 3.10.1).

ghost use Rattle.std.specs.Prelude.{◌≡◌, map};
ghost use Rattle.ike_sas.specs.Errors.{error_type, first_error};
ghost use Rattle.ike_values.specs.PayloadView.{payload_value};

use ike_values::Payload;

/// The notify types of errors are below this, and those of status are not (RFC 7296, section
/// 3.10.1).
pub const FIRST_STATUS: u16 = 16384;

/// The type of a notification of an error.
fn error_type(payload: &Payload) -> Option<u16>
    ensures { result ≡ error_type (payload_value payload.now) }
{
    match payload {
        Payload::Notify(notify) if notify.kind < FIRST_STATUS => Some(notify.kind),
        _ => None,
    }
}

/// The type of the first notification of an error.
pub fn first_error(payloads: &[Payload]) -> Option<u16>
    ensures { result ≡ first_error (map payload_value payloads.now) }
{
    let mut rest = payloads;
    while let [payload, others @ ..] = rest {
        if let Some(kind) = error_type(payload) {
            return Some(kind);
        }
        rest = others;
    }
    None
}
