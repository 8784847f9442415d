ghost use Rattle.std.specs.Prelude.{◌≡◌, None, Some, MatchOption, map};
ghost use Rattle.ike_values.specs.PayloadView.{payload_value};
ghost use Rattle.ike_values.specs.Notifications.{first_notify, notify_data};

use crate::payload::Payload;

/// The data of the first notification of a type.
pub(crate) fn first_notify(payloads: &[Payload], kind: u16) -> Option<&[u8]>
    ensures { MatchOption result
        (first_notify kind (map payload_value payloads.now) ≡ None)
        (λ octets. first_notify kind (map payload_value payloads.now) ≡ Some octets.now) }
{
    let mut rest = payloads;
    while let [payload, others @ ..] = rest {
        if let Some(data) = notify_data(payload, kind) {
            return Some(data);
        }
        rest = others;
    }
    None
}

/// The data of a payload that is a notification of this type.
fn notify_data(payload: &Payload, kind: u16) -> Option<&[u8]>
    ensures { MatchOption result
        (notify_data kind (payload_value payload.now) ≡ None)
        (λ octets. notify_data kind (payload_value payload.now) ≡ Some octets.now) }
{
    match payload {
        Payload::Notify(notify) if notify.kind == kind => Some(notify.content.as_slice()),
        _ => None,
    }
}
