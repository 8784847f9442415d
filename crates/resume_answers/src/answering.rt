ghost use Rattle.std.specs.Prelude.{◌≡◌, ◌≢◌, ◌<◌, true, length, is_some, Some, IfOk, OnErr};
ghost use Rattle.keeper_book.specs.Asks.{AsksFor};
ghost use Rattle.keeper_book.specs.declared.pools.Pool.TheVariants as pool;
ghost use Rattle.keeper_book.specs.declared.pools.TheConstants.{NONCE_NUMBERS_END};
ghost use Rattle.pool_lots.specs.Lots.{AreNumbersOf};
ghost use Rattle.resume_exchange.specs.Requests.{first_nonce};
ghost use Rattle.resume_exchange.specs.declared.half_opens.TheConstants.{MAX_HALF_OPENS};
ghost use Rattle.resume_answers.specs.Members.{AnswersPresented, AnswersResume, IsOpened};
ghost use Rattle.resume_answers.specs.Members.{Redirects};
ghost use Rattle.resume_answers.specs.Octets.{redirect_answer};

use crate::octets::{Copies, Room};
use crate::parts::{MemberAnswer, OwnParts, Presented, Resumptions};
use crate::unspent::draw_unless_spent;
use ha_base::{Derivation, Memory, Moment, Octets};
use ike_values::Message;
use keeper_book::Keeper;
use resume_exchange::{HalfOpen, Judged, NONCE_OCTETS, ResumeDrop, numbered_nonce, presented};
use std::alloc::Global;

impl Resumptions {
    /// Answers a request to resume, whose octets were decoded to the message: the first of
    /// [`MemberAnswer`] that applies (RFC 5723, section 4.3.2; RFC 5685, section 3).
    ///
    /// Half-open associations past their age are removed first, once the request has its form. The
    /// keeper is asked only for a ticket that is taken otherwise. Where it refuses, nothing is half
    /// open by the request. An error is want of memory; nothing has changed then, and no keeper was
    /// asked.
    pub fn on_resume<K: Keeper>(
        &mut self,
        alloc: Global,
        keeper: &mut K,
        own: &OwnParts,
        now: Moment,
        message: &Message,
        bytes: &[u8],
    ) -> Result<MemberAnswer, Memory>
        requires numbers { AreNumbersOf pool.Nonce self.old.nonces }
        ensures answers { IfOk result (λ answer. AsksFor K.Keeper keeper.old keeper.new (λ calls.
            AnswersResume own.now now.0 message.now bytes.now self.old calls answer self.new)) }
        ensures numbers { AreNumbersOf pool.Nonce self.new.nonces }
        ensures memory { OnErr result (self.new ≡ self.old) }
        ensures unasked { OnErr result (keeper.new ≡ keeper.old) }
    {
        let Some((nonce, _)) = presented(&message.header, &message.payloads) else {
            return Ok(MemberAnswer::Dropped(ResumeDrop::Form));
        };
        let ni = nonce_of(nonce);
        let room = Room::new(alloc, bytes)?;
        let steered = own.steered.is_some();
        let judged = self
            .half_opens
            .judge(alloc, &own.ticket_key, steered, now, message)?;
        let spii = message.header.spii;
        Ok(match judged {
            Judged::Form => MemberAnswer::Dropped(ResumeDrop::Form),
            Judged::Full => MemberAnswer::Dropped(ResumeDrop::HalfOpenFull),
            Judged::Redirected => redirecting(own, room, spii, &ni),
            Judged::Nack => MemberAnswer::Nack(room.nack(spii)),
            Judged::Presented { number, content } => {
                let asked = Presented {
                    came: now,
                    spii,
                    ni,
                    ticket: number,
                    content,
                };
                self.on_presented(keeper, own, &asked, room)
            }
        })
    }

    /// Answers a request whose ticket is taken, unless it was spent.
    fn on_presented<K: Keeper>(
        &mut self,
        keeper: &mut K,
        own: &OwnParts,
        asked: &Presented,
        room: Room,
    ) -> MemberAnswer
        requires room { length self.old.half_opens ≢ MAX_HALF_OPENS }
        requires numbers { AreNumbersOf pool.Nonce self.old.nonces }
        ensures answers { AsksFor K.Keeper keeper.old keeper.new (λ calls.
            AnswersPresented own.now asked.now room.request.octets self.old calls result self.new) }
        ensures numbers { AreNumbersOf pool.Nonce self.new.nonces }
    {
        match draw_unless_spent(keeper, asked.ticket, &mut self.nonces) {
            Ok(Some(number)) => {
                let spir = number.value();
                number.burn();
                let (half_open, given) = opened(own, asked, room, spir);
                self.half_opens.put(half_open);
                MemberAnswer::HalfOpen(spir, given)
            }
            Ok(None) => MemberAnswer::Nack(room.nack(asked.spii)),
            Err(fault) => MemberAnswer::Refused(fault),
        }
    }
}

/// What is half open by a request, with this number as its responder's SPI, and the answer to it.
fn opened(own: &OwnParts, asked: &Presented, room: Room, spir: u64) -> (HalfOpen, Octets)
    requires { spir < NONCE_NUMBERS_END }
    ensures opened { IsOpened own.now asked.now room.request.octets spir result.0 }
    ensures same { result.1.octets ≡ result.0.response.octets }
{
    let nr = numbered_nonce(&own.fresh, spir);
    let Copies {
        request,
        response,
        given,
    } = room.nonce(asked.spii, spir, &nr);
    let half_open = HalfOpen {
        begun: asked.came,
        ticket: asked.ticket,
        content: asked.content,
        derivation: Derivation {
            old_spir: asked.content.spir,
            ni: asked.ni,
            nr,
            spii: asked.spii,
            spir,
        },
        request,
        response,
    };
    (half_open, given)
}

/// The answer that sends the peer to the member's gateway, which it has.
fn redirecting(own: &OwnParts, room: Room, spii: u64, ni: &[u8; NONCE_OCTETS]) -> MemberAnswer
    requires { is_some own.now.steered ≡ true }
    ensures { (message : _) → message.header.spii ≡ spii → first_nonce message.payloads ≡ Some ni.now →
        Redirects own.now message result }
{
    let gateway = own.steered.unwrap();
    MemberAnswer::Redirecting(gateway, room.redirect(spii, &gateway, ni))
}

/// A nonce of 32 octets.
fn nonce_of(octets: &[u8]) -> [u8; NONCE_OCTETS]
    requires { length octets.now ≡ NONCE_OCTETS }
    ensures { result ≡ octets.now }
{
    let mut nonce = [0; NONCE_OCTETS];
    nonce.copy_from_slice(octets);
    nonce
}
