//! The fields of a report's lines are in their ranges, since a turn's are in those of their types.

ghost use Rattle.std.specs.Prelude.{ℕ, List, option_to_list};
ghost use Rattle.std.specs.List.{All, AllByRecursion, flat_map};
ghost use Rattle.std.specs.Option.{option_map};
ghost use Rattle.events.specs.Events.{plain};
ghost use Rattle.event_text.specs.Grammar.{EventLine};
ghost use Rattle.report_text.specs.LineRanges.{AreReportBases, AreReportOctets, FitsAnswer, FitsAsk, FitsDerivation, FitsDrop, FitsError, FitsLine, FitsMark, FitsReason, FitsOrigin, FitsRefusal, FitsVerdict, IsReportNumber};
ghost use Rattle.report_text.specs.Drops.{dropped_message, dropped_packet};
ghost use Rattle.report_text.specs.Lines.{plain_verdict};
ghost use Rattle.report_text.specs.TurnLines.{gives_line, keep_line, seal_line, serve_line, turn_lines};

use crate::line::{KeyOrigin, PlainAnswer, PlainAsk};
use crate::turn_lines::{key_origin, part_of, plain_answer, plain_ask};
use events::{Datagram, IkeDrop, Mark, Refusal, Seal, Seals, Served, Turn, Verdict};
use ha_base::{Derivation, EspDrop};
use ike_values::Reason;
use keeper_book::{Call, Calls, Five};

fn number_fits(number: u64)
    ensures { IsReportNumber number }
{}

fn octets_fit(octets: &[u8])
    ensures { AreReportOctets octets.now }
{}

fn numbers_fit(numbers: &[u32])
    ensures { All IsReportNumber numbers.now }
{}

fn bases_fit(five: Five)
    ensures { AreReportBases five }
{}

fn ask_fits(ask: PlainAsk)
    ensures { FitsAsk ask }
{
    match ask {
        PlainAsk::Enter { .. } | PlainAsk::TakeOver { .. } | PlainAsk::Cover { .. } => {}
        PlainAsk::Lease { .. } | PlainAsk::Settle { .. } | PlainAsk::Look { .. } => {}
    }
}

fn answer_fits(answer: PlainAnswer)
    ensures { FitsAnswer answer }
{
    match answer {
        PlainAnswer::Taken { epoch: _, bases } => bases_fit(bases),
        PlainAnswer::Number(_) | PlainAnswer::Replaced(_) | PlainAnswer::Full(_) => {}
        PlainAnswer::Done
        | PlainAnswer::Failed
        | PlainAnswer::Unknown
        | PlainAnswer::Closed
        | PlainAnswer::Spent
        | PlainAnswer::SpiInUse => {}
    }
}

fn derivation_fits(derivation: Derivation)
    ensures { FitsDerivation derivation }
{
    octets_fit(&derivation.ni);
    octets_fit(&derivation.nr);
}

fn origin_fits(origin: KeyOrigin)
    ensures { FitsOrigin origin }
{
    match origin {
        KeyOrigin::Imported(_) | KeyOrigin::TicketKey(_) => {}
        KeyOrigin::Resumed(derivation) => derivation_fits(derivation),
    }
}

fn refusal_fits(refusal: Refusal)
    ensures { FitsRefusal refusal }
{
    match refusal {
        Refusal::Replaced(_) | Refusal::Full(_) | Refusal::NoRoom(_) => {}
        Refusal::WindowFull(_) | Refusal::NotOutstanding(_) => {}
        _ => {}
    }
}

fn reason_fits(reason: Reason)
    ensures { FitsReason reason }
{
    match reason {
        Reason::UnknownCritical(_) => {}
        _ => {}
    }
}

fn packet_drop_fits(why: EspDrop)
    ensures { FitsDrop (dropped_packet why) }
{
    match why {
        EspDrop::Short | EspDrop::WrongSpi | EspDrop::Stale => {}
        EspDrop::Seen | EspDrop::NotOpened | EspDrop::Padding => {}
    }
}

fn message_drop_fits(why: IkeDrop)
    ensures { FitsDrop (dropped_message why) }
{
    match why {
        IkeDrop::Bad(fault) => reason_fits(fault.reason),
        IkeDrop::Exchange(_) | IkeDrop::Old(_) | IkeDrop::Ahead(_) | IkeDrop::NotSynced(_) => {}
        IkeDrop::SyncOld(_) => {}
        IkeDrop::Direction | IkeDrop::UnknownSpi | IkeDrop::NotOpened | IkeDrop::NotAsked => {}
        IkeDrop::Nonce | IkeDrop::Delta => {}
    }
}

fn mark_fits(mark: Mark)
    ensures { FitsMark mark }
{
    match mark {
        Mark::Ticket(_) => {}
        Mark::Plain | Mark::Nack => {}
    }
}

fn error_fits(error: Option<u16>)
    ensures { FitsError error }
{
    match error {
        Some(_) | None => {}
    }
}

fn verdict_fits(verdict: &Verdict)
    ensures { FitsVerdict (plain_verdict verdict.now) }
{
    match verdict {
        Verdict::Member(number) => {
            let _number = *number;
        }
        Verdict::Number(number) | Verdict::Sent(number) => {
            let _number = *number;
        }
        Verdict::Owned { epoch, bases } => {
            let _epoch = *epoch;
            bases_fit(*bases);
        }
        Verdict::Accepted {
            counter: _,
            number,
            next_header,
            payload,
        } => {
            let _numbers = (*number, *next_header);
            octets_fit(payload.as_slice());
        }
        Verdict::Asked(id) | Verdict::Resent(id) | Verdict::Repeated(id) => {
            let _id = *id;
        }
        Verdict::Executed {
            counter: _,
            id,
            mark,
        } => {
            let _id = *id;
            mark_fits(*mark);
        }
        Verdict::Refusing {
            counter: _,
            id,
            notify,
        } => {
            let _numbers = (*id, *notify);
        }
        Verdict::Reply {
            counter: _,
            id,
            reply,
            kept: _,
            error,
        } => {
            let _id = *id;
            octets_fit(reply.as_slice());
            error_fits(*error);
        }
        Verdict::Syncing { m1, p1 } => {
            let _numbers = (*m1, *p1);
        }
        Verdict::SyncAccepted {
            counter: _,
            p2,
            m2,
            delta,
            unknown,
        } => {
            let _numbers = (*p2, *m2, *delta);
            numbers_fit(unknown.as_slice());
        }
        Verdict::Synced {
            counter: _,
            next_ask,
            floor,
        } => {
            let _numbers = (*next_ask, *floor);
        }
        Verdict::DroppedIke(why) => message_drop_fits(*why),
        Verdict::DroppedEsp(why) => packet_drop_fits(*why),
        Verdict::Refused(refusal) => refusal_fits(*refusal),
        Verdict::Configured | Verdict::Entered | Verdict::Down | Verdict::Forgotten => {}
    }
}

fn keep_fits(call: &Call)
    ensures { AllByRecursion FitsLine (option_to_list (keep_line call.now)) }
{
    if let (Some(ask), Some(answer)) = (plain_ask(&call.asked), plain_answer(&call.answer)) {
        ask_fits(ask);
        answer_fits(answer);
    }
}

#[tactic(auto, using(crate::proofs::WritingLaws::item_there))]
fn calls_fit(calls: &Calls)
    ensures { AllByRecursion FitsLine
        (flat_map (λ call. option_to_list (keep_line call)) calls.now) }
{
    for at in 0..calls.len() {
        let Some(call) = calls.get(at) else { return };
        keep_fits(call);
    }
}

fn served_fits(served: &Option<Served>)
    ensures { AllByRecursion FitsLine (option_to_list (option_map serve_line served.now)) }
{
    if let Some(served) = served {
        octets_fit(served.request.as_slice());
        octets_fit(served.reply.as_slice());
    }
}

fn seal_fits(seal: &Seal)
    ensures { AllByRecursion FitsLine (option_to_list (seal_line seal.now)) }
{
    let origin = key_origin(&seal.name.origin);
    let part = part_of(seal.name.kind, seal.name.end);
    if let (Some(origin), Some(_)) = (origin, part) {
        number_fits(u64::from(seal.name.child));
        number_fits(seal.iv);
        origin_fits(origin);
        octets_fit(seal.plain.as_slice());
        octets_fit(seal.sealed.as_slice());
    }
}

#[tactic(auto, using(crate::proofs::WritingLaws::item_there))]
fn seals_fit(seals: &Seals)
    ensures { AllByRecursion FitsLine
        (flat_map (λ seal. option_to_list (seal_line seal)) seals.now) }
{
    for at in 0..seals.len() {
        let Some(seal) = seals.get(at) else { return };
        seal_fits(seal);
    }
}

fn given_fits(number: u64, gives: &Option<Datagram>)
    ensures { AllByRecursion FitsLine
        (option_to_list (option_map (gives_line number) gives.now)) }
{
    if let Some(datagram) = gives {
        octets_fit(datagram.octets.as_slice());
    }
}

/// Each line of a turn is in its ranges, where a line of an event file says its event. So their
/// words tell these lines (`words_tell_their_line`).
pub fn turn_lines_fit(number: u64, datagram: u64, turn: &Turn)
    ensures { (last : ℕ) (line : List ℕ)
        → EventLine last line turn.now.moment (plain turn.now.event)
        → AllByRecursion FitsLine (turn_lines number datagram turn.now) }
{
    calls_fit(&turn.calls);
    served_fits(&turn.step.served);
    seals_fit(&turn.step.seals);
    given_fits(datagram, &turn.step.gives);
    verdict_fits(&turn.step.verdict);
}
