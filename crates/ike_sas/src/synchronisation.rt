ghost use Rattle.std.specs.Prelude.{◌≡◌};
ghost use Rattle.ike_sas.specs.Arrivals.{bad_in, has_message_ids, is_synchronisation};

use crate::exchanges::INFORMATIONAL;
use ike_grammar::Bad;
use ike_values::Payloads;
use sk_payload::Opened;
use sync_exchange::request_of;

/// The first fault of the inner payloads, if they are faulty.
pub(crate) fn bad_in(opened: &Opened) -> Option<Bad>
    ensures { result ≡ bad_in opened.now.inner }
{
    match &opened.inner {
        Ok(_) => None,
        Err(bad) => Some(*bad),
    }
}

/// A message has the form of a synchronisation (RFC 6311, section 5.1), be it a request or a
/// response.
pub(crate) fn is_synchronisation(opened: &Opened) -> bool
    ensures { result ≡ is_synchronisation opened.now }
{
    match &opened.inner {
        Ok(payloads) => {
            opened.header.exchange == INFORMATIONAL
                && opened.header.id == 0
                && has_message_ids(payloads)
        }
        Err(_) => false,
    }
}

/// The first Message ID synchronisation among the payloads has its twelve octets.
#[tactic(auto, using(crate::proofs::Synchronisations::asks_exactly))]
fn has_message_ids(payloads: &Payloads) -> bool
    ensures { result ≡ has_message_ids payloads.now }
{
    request_of(payloads).is_ok()
}
