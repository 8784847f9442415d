ghost use Rattle.std.specs.Prelude.{◌≡◌};
ghost use Rattle.sync_exchange.specs.Notifications.{ids_in, message_ids_spelling};

use ha_base::read_u32;
use ike_values::Payloads;
use ike_values::notify_types::IKEV2_MESSAGE_ID_SYNC;

/// How many octets a Message ID synchronisation has.
pub const MESSAGE_IDS_OCTETS: usize = 12;

/// What a Message ID synchronisation says (RFC 6311, section 6.3).
#[derive(Clone, Copy)]
pub struct MessageIds {
    pub nonce: u32,
    /// The Message ID of its sender's next request.
    pub send: u32,
    /// The Message ID of the next request that its sender expects.
    pub receive: u32,
}

impl MessageIds {
    /// The data of the notification: the three numbers, each in four octets.
    pub fn octets(&self) -> [u8; MESSAGE_IDS_OCTETS]
        ensures { result ≡ message_ids_spelling self.now }
    {
        let mut octets = [0; MESSAGE_IDS_OCTETS];
        octets[..4].copy_from_slice(&self.nonce.to_be_bytes());
        octets[4..8].copy_from_slice(&self.send.to_be_bytes());
        octets[8..].copy_from_slice(&self.receive.to_be_bytes());
        octets
    }
}

/// What the first Message ID synchronisation says, where it has twelve octets.
pub(crate) fn message_ids(payloads: &Payloads) -> Option<MessageIds>
    ensures { result ≡ ids_in payloads.now }
{
    let octets = payloads.first_notify(IKEV2_MESSAGE_ID_SYNC)?;
    if octets.len() != MESSAGE_IDS_OCTETS {
        return None;
    }
    Some(MessageIds {
        nonce: read_u32(&octets[..4]),
        send: read_u32(&octets[4..8]),
        receive: read_u32(&octets[8..]),
    })
}
