ghost use Rattle.sk_payload.specs.Laws.{SealedMessagesOpen};

use ike_grammar::{one_message, one_reading};

/// What was sealed opens with its header and its inner payloads, unless memory runs out.
pub fn sealed_messages_open()
    ensures { SealedMessagesOpen }
{
    one_message();
    one_reading();
}
