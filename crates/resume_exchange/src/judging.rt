ghost use Rattle.std.specs.Prelude.{◌≡◌, IfOk, IfSome, IfNone, OnErr};
ghost use Rattle.resume_exchange.specs.Judgements.{IsJudged, IsNotTaken, IsTaken};
ghost use Rattle.resume_exchange.specs.Judgements.{follows_redirects};

use crate::half_opens::{HalfOpens, MAX_HALF_OPENS};
use crate::request::presented;
use crate::usable::usable_ticket;
use aes_gcm::{Key, MAX_LEN};
use ha_base::{Memory, Moment};
use ike_values::notify_types::{REDIRECT_SUPPORTED, REDIRECTED_FROM};
use ike_values::{Message, Payloads};
use std::alloc::Global;
use tickets::Content;

/// What a member makes of a request to resume before it asks the keeper.
#[derive(Debug, Drop)]
pub enum Judged {
    /// It is no such request, and is dropped.
    Form,
    /// There are 64 half-open associations, and it is dropped.
    Full,
    /// The member sends peers elsewhere, and this one follows redirects.
    Redirected,
    /// The ticket is not taken.
    Nack,
    /// The ticket is taken, unless the keeper knows it as spent.
    Presented { number: u64, content: Content },
}

impl HalfOpens {
    /// What a member makes of a request to resume by itself: the first of [`Judged`] that applies
    /// (RFC 5723, section 4.3.2).
    ///
    /// Half-open associations past their age are removed once the request has its form. A ticket
    /// of more than 65,536 octets, as no message has, is not taken. An error is want of memory; it
    /// leaves the half-open associations as they were.
    pub fn judge(
        &mut self,
        alloc: Global,
        ticket_key: &Option<Key>,
        is_steered: bool,
        now: Moment,
        message: &Message,
    ) -> Result<Judged, Memory>
        ensures judged { IfOk result (λ judged.
            IsJudged ticket_key.now is_steered now.0 message.now self.old judged self.new) }
        ensures memory { OnErr result (self.new ≡ self.old) }
    {
        let Some((_, ticket)) = presented(&message.header, &message.payloads) else {
            return Ok(Judged::Form);
        };
        let taken = taken_ticket(alloc, ticket_key, ticket, now)?;
        self.forget_old(now);
        if self.count() == MAX_HALF_OPENS {
            return Ok(Judged::Full);
        }
        if is_steered && follows_redirects(&message.payloads) {
            return Ok(Judged::Redirected);
        }
        match taken {
            Some((number, content)) => Ok(Judged::Presented { number, content }),
            None => Ok(Judged::Nack),
        }
    }
}

/// The number and the content of a ticket, where there is a key that it opens under, and it has
/// not expired.
fn taken_ticket(
    alloc: Global,
    ticket_key: &Option<Key>,
    ticket: &[u8],
    now: Moment,
) -> Result<Option<(u64, Content)>, Memory>
    ensures taken { IfOk result (λ found. IfSome found (λ opened.
        IsTaken ticket_key.now ticket.now now.0 opened.0 opened.1)) }
    ensures not_taken { IfOk result (λ found.
        IfNone found (IsNotTaken ticket_key.now ticket.now now.0)) }
{
    match ticket_key {
        Some(key) if ticket.len() <= MAX_LEN => usable_ticket(alloc, key, ticket, now),
        Some(_) | None => Ok(None),
    }
}

/// Whether the peer says that it follows redirects (RFC 5685, section 3).
fn follows_redirects(payloads: &Payloads) -> bool
    ensures { result ≡ follows_redirects payloads.now }
{
    payloads.first_notify(REDIRECT_SUPPORTED).is_some()
        || payloads.first_notify(REDIRECTED_FROM).is_some()
}
