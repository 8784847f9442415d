//! The lines of a turn's calls and seals.

ghost use Rattle.std.specs.Prelude.{◌≡◌};
ghost use Rattle.std.specs.Option.{option_map};
ghost use Rattle.report_text.specs.Lines.{plain_line};
ghost use Rattle.report_text.specs.TurnLines.{keep_line, key_origin, part_of, plain_answer, plain_ask, plain_fault, seal_line, spent_number};

use crate::line::{KeyOrigin, Line, Part, PlainAnswer, PlainAsk};
use events::Seal;
use ha_base::{End, Kind, Origin};
use keeper_book::{Call, Counter, KeeperAnswer, KeeperAsk, KeeperFault};

pub(crate) fn plain_ask(ask: &KeeperAsk) -> Option<PlainAsk>
    ensures { result ≡ plain_ask ask.now }
{
    match ask {
        KeeperAsk::Enter { sa } => Some(PlainAsk::Enter { spir: sa.spir }),
        KeeperAsk::TakeOver { spir, member } => Some(PlainAsk::TakeOver {
            spir: *spir,
            member: *member,
        }),
        KeeperAsk::Cover {
            spir,
            kind,
            child,
            epoch,
            upto,
        } => {
            let counter = Counter::of_kind(*kind)?;
            Some(PlainAsk::Cover {
                spir: *spir,
                counter,
                child: *child,
                epoch: *epoch,
                upto: *upto,
            })
        }
        KeeperAsk::Lease { pool, count } => Some(PlainAsk::Lease {
            pool: *pool,
            count: *count,
        }),
        KeeperAsk::Settle {
            ticket,
            old_spir,
            sa,
            member,
        } => Some(PlainAsk::Settle {
            ticket: *ticket,
            old_spir: *old_spir,
            spir: sa.spir,
            member: *member,
        }),
        KeeperAsk::Look { ticket } => Some(PlainAsk::Look { ticket: *ticket }),
    }
}

// a spent ticket is 1
fn spent_number(is_spent: bool) -> u64
    ensures { result ≡ spent_number is_spent }
{
    if is_spent { 1 } else { 0 }
}

fn plain_fault(fault: KeeperFault) -> Option<PlainAnswer>
    ensures { result ≡ plain_fault fault }
{
    match fault {
        KeeperFault::Failed => Some(PlainAnswer::Failed),
        KeeperFault::Replaced(epoch) => Some(PlainAnswer::Replaced(epoch)),
        KeeperFault::Unknown => Some(PlainAnswer::Unknown),
        KeeperFault::Closed => Some(PlainAnswer::Closed),
        KeeperFault::Spent => Some(PlainAnswer::Spent),
        KeeperFault::Full(limit) => Some(PlainAnswer::Full(limit)),
        KeeperFault::SpiInUse => Some(PlainAnswer::SpiInUse),
        KeeperFault::Memory => None,
    }
}

pub(crate) fn plain_answer(answer: &KeeperAnswer) -> Option<PlainAnswer>
    ensures { result ≡ plain_answer answer.now }
{
    match answer {
        KeeperAnswer::Done => Some(PlainAnswer::Done),
        KeeperAnswer::Taken(taken) => Some(PlainAnswer::Taken {
            epoch: taken.epoch,
            bases: taken.bases,
        }),
        KeeperAnswer::First(first) => Some(PlainAnswer::Number(*first)),
        KeeperAnswer::Look(is_spent) => Some(PlainAnswer::Number(spent_number(*is_spent))),
        KeeperAnswer::Refused(fault) => plain_fault(*fault),
    }
}

/// The line of a call, where a report has such ones.
pub(crate) fn keep_line(call: &Call) -> Option<Line<'_>>
    ensures { option_map plain_line result ≡ keep_line call.now }
{
    let ask = plain_ask(&call.asked)?;
    let answer = plain_answer(&call.answer)?;
    Some(Line::Keep {
        ask,
        lost: call.hidden,
        answer,
    })
}

pub(crate) fn key_origin(origin: &Origin) -> Option<KeyOrigin>
    ensures { result ≡ key_origin origin.now }
{
    match origin {
        Origin::Imported(spir) => Some(KeyOrigin::Imported(*spir)),
        Origin::Resumed(derivation) => Some(KeyOrigin::Resumed(*derivation)),
        Origin::TicketKey(generation) => Some(KeyOrigin::TicketKey(*generation)),
        Origin::Pool => None,
    }
}

pub(crate) fn part_of(kind: Kind, end: End) -> Option<Part>
    ensures { result ≡ part_of kind end }
{
    match (kind, end) {
        (Kind::EspOut | Kind::EspIn, End::Cluster) => Some(Part::EspC),
        (Kind::EspOut | Kind::EspIn, End::Peer) => Some(Part::EspP),
        (Kind::Iv, End::Cluster) => Some(Part::IkeC),
        (Kind::Iv, End::Peer) => Some(Part::IkeP),
        (Kind::TicketIv, _) => Some(Part::Ticket),
        (Kind::Ask | Kind::Answer | Kind::Nonce, _) => None,
    }
}

/// The line of a seal, where a report has such ones.
pub(crate) fn seal_line(seal: &Seal) -> Option<Line<'_>>
    ensures { option_map plain_line result ≡ seal_line seal.now }
{
    let origin = key_origin(&seal.name.origin)?;
    let part = part_of(seal.name.kind, seal.name.end)?;
    Some(Line::Seal {
        origin,
        part,
        child: seal.name.child,
        iv: seal.iv,
        plain: seal.plain.as_slice(),
        sealed: seal.sealed.as_slice(),
    })
}
