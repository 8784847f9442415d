//! How an event came out, in words. The verdicts of a kind have a module: those of the run stand
//! here, those of ESP in `esp_verdicts`, those on requests in `request_verdicts`, those of
//! synchronisations in `sync_verdicts`, those that refuse in `refusals`. Resumptions and redirects get
//! one each beside them.

ghost use Rattle.std.specs.Prelude.{◌≡◌, [], ◌∷◌, ◌++◌, OnOk};
ghost use Rattle.std.specs.Fmt.{decimal};
ghost use Rattle.events.specs.FieldWords.{five_words};
ghost use Rattle.line_fields.specs.Writing.{with_words};
ghost use Rattle.report_text.specs.Lines.{plain_verdict};
ghost use Rattle.report_text.specs.Spelling.{verdict_words};

use crate::esp_verdicts::{put_accepted, put_dropped_packet};
use crate::event::put_five;
use crate::named::put_named_number;
use crate::refusals::put_refused;
use crate::request_verdicts::{put_dropped_message, put_executed, put_refusing, put_reply};
use crate::sync_verdicts::{put_sync_accepted, put_synced, put_syncing};
use events::Verdict;
use ha_base::{Memory, Octets};
use std::alloc::Global;
use word_text::put_word;

pub(crate) fn put_verdict(alloc: Global, out: &mut Octets, verdict: &Verdict) -> Result<(), Memory>
    ensures { OnOk result (out.new.octets
        ≡ with_words out.old.octets (verdict_words (plain_verdict verdict.now))) }
{
    match verdict {
        Verdict::Configured => put_word(out, b"configured"),
        Verdict::Entered => put_word(out, b"entered"),
        Verdict::Down => put_word(out, b"down"),
        Verdict::Forgotten => put_word(out, b"forgotten"),
        Verdict::Member(number) => put_named_number(alloc, out, b"member", u64::from(*number)),
        Verdict::Owned { epoch, bases } => {
            put_named_number(alloc, out, b"owned", *epoch)?;
            put_five(alloc, out, bases)
        }
        Verdict::Number(number) => put_named_number(alloc, out, b"number", *number),
        Verdict::Sent(number) => put_named_number(alloc, out, b"sent", *number),
        Verdict::Accepted {
            counter: _,
            number,
            next_header,
            payload,
        } => put_accepted(alloc, out, *number, *next_header, payload.as_slice()),
        Verdict::Asked(id) => put_named_number(alloc, out, b"asked", u64::from(*id)),
        Verdict::Resent(id) => put_named_number(alloc, out, b"resent", u64::from(*id)),
        Verdict::Executed {
            counter: _,
            id,
            mark,
        } => put_executed(alloc, out, *id, *mark),
        Verdict::Repeated(id) => put_named_number(alloc, out, b"repeated", u64::from(*id)),
        Verdict::Refusing {
            counter: _,
            id,
            notify,
        } => put_refusing(alloc, out, *id, *notify),
        Verdict::Reply {
            counter: _,
            id,
            reply,
            kept,
            error,
        } => put_reply(alloc, out, *id, reply.as_slice(), kept, *error),
        Verdict::Syncing { m1, p1 } => put_syncing(alloc, out, *m1, *p1),
        Verdict::SyncAccepted {
            counter: _,
            p2,
            m2,
            delta,
            unknown,
        } => put_sync_accepted(alloc, out, *p2, *m2, *delta, unknown.as_slice()),
        Verdict::Synced {
            counter: _,
            next_ask,
            floor,
        } => put_synced(alloc, out, *next_ask, *floor),
        Verdict::DroppedIke(why) => put_dropped_message(alloc, out, *why),
        Verdict::DroppedEsp(why) => put_dropped_packet(out, *why),
        Verdict::Refused(refusal) => put_refused(alloc, out, *refusal),
    }
}
