//! The verdicts on synchronisations (RFC 6311, section 5.1).

ghost use Rattle.std.specs.Prelude.{◌≡◌, [], ◌∷◌, ◌++◌, OnOk};
ghost use Rattle.std.specs.Fmt.{decimal};
ghost use Rattle.std.specs.List.{flat_map};
ghost use Rattle.line_fields.specs.Writing.{with_words};
ghost use Rattle.report_text.specs.Lines.{SyncAccepted, Synced, Syncing};
ghost use Rattle.report_text.specs.Spelling.{comma_number, numbers_text, verdict_words};

use crate::named::put_named_number;
use ha_base::{Memory, Octets};
use std::alloc::Global;
use word_text::{put_bare_number, put_number, put_word};

// A word and two Message IDs.
fn put_ids(
    alloc: Global,
    out: &mut Octets,
    word: &[u8],
    first: u32,
    second: u32,
) -> Result<(), Memory>
    ensures { OnOk result (out.new.octets
        ≡ with_words out.old.octets (word.now ∷ decimal first ∷ decimal second ∷ [])) }
{
    put_named_number(alloc, out, word, u64::from(first))?;
    put_number(alloc, out, u64::from(second))
}

pub(crate) fn put_syncing(alloc: Global, out: &mut Octets, m1: u32, p1: u32) -> Result<(), Memory>
    ensures { OnOk result (out.new.octets
        ≡ with_words out.old.octets (verdict_words (Syncing m1 p1))) }
{
    put_ids(alloc, out, b"syncing", m1, p1)
}

// Each number behind a comma.
#[tactic(auto, using(crate::proofs::WritingLaws::one_more))]
fn put_others(alloc: Global, out: &mut Octets, numbers: &[u32]) -> Result<(), Memory>
    ensures { OnOk result (out.new.octets ≡ out.old.octets ++ flat_map comma_number numbers.now) }
{
    for number in numbers {
        out.push(b',')?;
        put_bare_number(alloc, out, u64::from(*number))?;
    }
    Ok(())
}

#[tactic(auto, unfolding(crate::specs::Spelling::numbers_text))]
fn put_numbers(alloc: Global, out: &mut Octets, numbers: &[u32]) -> Result<(), Memory>
    ensures { OnOk result (out.new.octets ≡ out.old.octets ++ (32 ∷ numbers_text numbers.now)) }
{
    match numbers.split_first() {
        None => put_word(out, b"-"),
        Some((first, others)) => {
            put_number(alloc, out, u64::from(*first))?;
            put_others(alloc, out, others)
        }
    }
}

pub(crate) fn put_sync_accepted(
    alloc: Global,
    out: &mut Octets,
    p2: u32,
    m2: u32,
    delta: u64,
    unknown: &[u32],
) -> Result<(), Memory>
    ensures { OnOk result (out.new.octets
        ≡ with_words out.old.octets (verdict_words (SyncAccepted p2 m2 delta unknown.now))) }
{
    put_ids(alloc, out, b"sync-accepted", p2, m2)?;
    put_number(alloc, out, delta)?;
    put_numbers(alloc, out, unknown)
}

pub(crate) fn put_synced(
    alloc: Global,
    out: &mut Octets,
    next_ask: u32,
    floor: u32,
) -> Result<(), Memory>
    ensures { OnOk result (out.new.octets
        ≡ with_words out.old.octets (verdict_words (Synced next_ask floor))) }
{
    put_ids(alloc, out, b"synced", next_ask, floor)
}
