//! The verdicts on requests, their responses, and IKE messages that were dropped (RFC 7296, sections
//! 2.1 to 2.3).

ghost use Rattle.std.specs.Prelude.{◌≡◌, [], ◌∷◌, ◌++◌, OnOk};
ghost use Rattle.std.specs.Fmt.{decimal};
ghost use Rattle.line_fields.specs.Writing.{with_words};
ghost use Rattle.report_text.specs.Drops.{drop_words, dropped_message};
ghost use Rattle.report_text.specs.Lines.{Dropped, Executed, Refusing, Reply, plain_kept};
ghost use Rattle.report_text.specs.Spelling.{error_words, kept_words, mark_words, verdict_words};

use crate::named::put_named_number;
use events::{IkeDrop, Kept, Mark};
use fault_text::put_fault;
use ha_base::{Memory, Octets};
use std::alloc::Global;
use word_text::{put_number, put_octets, put_word};

pub(crate) fn put_executed(
    alloc: Global,
    out: &mut Octets,
    id: u32,
    mark: Mark,
) -> Result<(), Memory>
    ensures { OnOk result (out.new.octets
        ≡ with_words out.old.octets (verdict_words (Executed id mark))) }
{
    put_named_number(alloc, out, b"executed", u64::from(id))?;
    match mark {
        Mark::Plain => Ok(()),
        Mark::Ticket(number) => put_named_number(alloc, out, b"ticket", number),
        Mark::Nack => put_word(out, b"nack"),
    }
}

pub(crate) fn put_refusing(
    alloc: Global,
    out: &mut Octets,
    id: u32,
    notify: u16,
) -> Result<(), Memory>
    ensures { OnOk result (out.new.octets
        ≡ with_words out.old.octets (verdict_words (Refusing id notify))) }
{
    put_named_number(alloc, out, b"refusing", u64::from(id))?;
    put_number(alloc, out, u64::from(notify))
}

fn put_kept(out: &mut Octets, kept: &Kept) -> Result<(), Memory>
    ensures { OnOk result (out.new.octets
        ≡ with_words out.old.octets (kept_words (plain_kept kept.now))) }
{
    match kept {
        Kept::Plain => Ok(()),
        Kept::Ticket { .. } => put_word(out, b"ticket"),
        Kept::Nack => put_word(out, b"nack"),
    }
}

fn put_error(alloc: Global, out: &mut Octets, error: Option<u16>) -> Result<(), Memory>
    ensures { OnOk result (out.new.octets ≡ with_words out.old.octets (error_words error)) }
{
    match error {
        Some(notify) => put_named_number(alloc, out, b"error", u64::from(notify)),
        None => Ok(()),
    }
}

pub(crate) fn put_reply(
    alloc: Global,
    out: &mut Octets,
    id: u32,
    reply: &[u8],
    kept: &Kept,
    error: Option<u16>,
) -> Result<(), Memory>
    ensures { OnOk result (out.new.octets
        ≡ with_words out.old.octets
        (verdict_words (Reply id reply.now (plain_kept kept.now) error))) }
{
    put_named_number(alloc, out, b"reply", u64::from(id))?;
    put_octets(alloc, out, reply)?;
    put_kept(out, kept)?;
    put_error(alloc, out, error)
}

fn put_why(alloc: Global, out: &mut Octets, why: IkeDrop) -> Result<(), Memory>
    ensures { OnOk result (out.new.octets
        ≡ with_words out.old.octets (drop_words (dropped_message why))) }
{
    match why {
        IkeDrop::Bad(fault) => {
            put_word(out, b"bad")?;
            put_fault(alloc, out, fault)
        }
        IkeDrop::Direction => put_word(out, b"direction"),
        IkeDrop::Exchange(number) => {
            put_named_number(alloc, out, b"exchange", u64::from(number))
        }
        IkeDrop::UnknownSpi => put_word(out, b"unknown-spi"),
        IkeDrop::NotOpened => put_word(out, b"not-opened"),
        IkeDrop::Old(id) => put_named_number(alloc, out, b"old", u64::from(id)),
        IkeDrop::Ahead(id) => put_named_number(alloc, out, b"ahead", u64::from(id)),
        IkeDrop::NotSynced(id) => put_named_number(alloc, out, b"not-synced", u64::from(id)),
        IkeDrop::NotAsked => put_word(out, b"not-asked"),
        IkeDrop::SyncOld(id) => put_named_number(alloc, out, b"sync-old", u64::from(id)),
        IkeDrop::Nonce => put_word(out, b"nonce"),
        IkeDrop::Delta => put_word(out, b"delta"),
    }
}

pub(crate) fn put_dropped_message(
    alloc: Global,
    out: &mut Octets,
    why: IkeDrop,
) -> Result<(), Memory>
    ensures { OnOk result (out.new.octets
        ≡ with_words out.old.octets (verdict_words (Dropped (dropped_message why)))) }
{
    put_word(out, b"dropped")?;
    put_why(alloc, out, why)
}
