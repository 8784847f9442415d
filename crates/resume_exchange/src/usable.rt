ghost use Rattle.std.specs.Prelude.{◌≡◌, ◌≤◌, length, IfOk, IfSome, IfNone};
ghost use Rattle.resume_exchange.specs.Usable.{IsUsable, IsUseless};

use aes_gcm::{Key, MAX_LEN};
use ha_base::{Memory, Moment};
use std::alloc::Global;
use tickets::{BadTicket, Content, open_ticket};

/// The number and the content of a ticket of at most 65,536 octets that opens and has not expired.
///
/// None comes exactly where it does not open for one of the reasons of [`BadTicket`] other than
/// want of memory, or where its expiry is not after `now`. An error is want of memory. Whether it
/// was spent is for the keeper to say.
pub fn usable_ticket(
    alloc: Global,
    key: &Key,
    ticket: &[u8],
    now: Moment,
) -> Result<Option<(u64, Content)>, Memory>
    requires { length ticket.now ≤ MAX_LEN }
    ensures usable { IfOk result (λ found. IfSome found (λ opened.
        IsUsable key.now.octets ticket.now now.0 opened.0 opened.1)) }
    ensures useless { IfOk result (λ found.
        IfNone found (IsUseless key.now.octets ticket.now now.0)) }
{
    match open_ticket(alloc, key, ticket) {
        Ok((number, content)) if now.0 < content.expiry => Ok(Some((number, content))),
        Ok(_) => Ok(None),
        Err(BadTicket::Memory) => Err(Memory),
        Err(_) => Ok(None),
    }
}
