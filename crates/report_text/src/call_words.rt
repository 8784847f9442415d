//! The words of a keeper's call.

ghost use Rattle.std.specs.Prelude.{◌≡◌, ◌∷◌, ◌++◌, OnOk};
ghost use Rattle.line_fields.specs.Writing.{with_words};
ghost use Rattle.report_text.specs.declared.line.PlainAsk.TheVariants as calls;
ghost use Rattle.report_text.specs.Spelling.{answer_words, ask_words, counter_word, lost_words, pool_word};

use crate::event::put_five;
use crate::line::{PlainAnswer, PlainAsk};
use crate::named::put_named_number;
use ha_base::{Memory, Octets};
use keeper_book::{Counter, Pool};
use std::alloc::Global;
use word_text::{put_number, put_spi, put_word};

fn counter_word(counter: Counter) -> &'static [u8]
    ensures { result.now ≡ counter_word counter }
{
    match counter {
        Counter::EspOut => b"esp-out",
        Counter::EspIn => b"esp-in",
        Counter::Iv => b"iv",
        Counter::Ask => b"ask",
        Counter::Answer => b"answer",
    }
}

fn pool_word(pool: Pool) -> &'static [u8]
    ensures { result.now ≡ pool_word pool }
{
    match pool {
        Pool::Ticket => b"ticket",
        Pool::Nonce => b"nonce",
    }
}

fn put_settle(
    alloc: Global,
    out: &mut Octets,
    ticket: u64,
    old_spir: u64,
    spir: u64,
    member: u32,
) -> Result<(), Memory>
    ensures { OnOk result (out.new.octets ≡ with_words out.old.octets
        (ask_words (calls.Settle ticket old_spir spir member))) }
{
    put_word(out, b"settle")?;
    put_number(alloc, out, ticket)?;
    put_spi(alloc, out, old_spir)?;
    put_spi(alloc, out, spir)?;
    put_number(alloc, out, u64::from(member))
}

fn put_ask(alloc: Global, out: &mut Octets, ask: &PlainAsk) -> Result<(), Memory>
    ensures { OnOk result (out.new.octets ≡ with_words out.old.octets (ask_words ask.now)) }
{
    match ask {
        PlainAsk::Enter { spir } => {
            put_word(out, b"enter")?;
            put_spi(alloc, out, *spir)
        }
        PlainAsk::TakeOver { spir, member } => {
            put_word(out, b"take-over")?;
            put_spi(alloc, out, *spir)?;
            put_number(alloc, out, u64::from(*member))
        }
        PlainAsk::Cover {
            spir,
            counter,
            child,
            epoch,
            upto,
        } => {
            put_word(out, b"cover")?;
            put_spi(alloc, out, *spir)?;
            put_word(out, counter_word(*counter))?;
            put_number(alloc, out, u64::from(*child))?;
            put_number(alloc, out, *epoch)?;
            put_number(alloc, out, *upto)
        }
        PlainAsk::Lease { pool, count } => {
            put_word(out, b"lease")?;
            put_word(out, pool_word(*pool))?;
            put_number(alloc, out, *count)
        }
        PlainAsk::Settle {
            ticket,
            old_spir,
            spir,
            member,
        } => put_settle(alloc, out, *ticket, *old_spir, *spir, *member),
        PlainAsk::Look { ticket } => put_named_number(alloc, out, b"look", *ticket),
    }
}

fn put_answer(alloc: Global, out: &mut Octets, answer: &PlainAnswer) -> Result<(), Memory>
    ensures { OnOk result (out.new.octets ≡ with_words out.old.octets (answer_words answer.now)) }
{
    match answer {
        PlainAnswer::Done => put_word(out, b"ok"),
        PlainAnswer::Taken { epoch, bases } => {
            put_named_number(alloc, out, b"ok", *epoch)?;
            put_five(alloc, out, bases)
        }
        PlainAnswer::Number(number) => put_named_number(alloc, out, b"ok", *number),
        PlainAnswer::Failed => put_word(out, b"failed"),
        PlainAnswer::Replaced(epoch) => put_named_number(alloc, out, b"replaced", *epoch),
        PlainAnswer::Unknown => put_word(out, b"unknown"),
        PlainAnswer::Closed => put_word(out, b"closed"),
        PlainAnswer::Spent => put_word(out, b"spent"),
        PlainAnswer::Full(limit) => put_named_number(alloc, out, b"full", *limit),
        PlainAnswer::SpiInUse => put_word(out, b"spi-in-use"),
    }
}

fn put_lost(out: &mut Octets, lost: bool) -> Result<(), Memory>
    ensures { OnOk result (out.new.octets ≡ with_words out.old.octets (lost_words lost)) }
{
    if lost {
        return put_word(out, b"lost");
    }
    Ok(())
}

/// What the keeper was asked, and what it answered.
#[tactic(auto, using(line_fields::proofs::WritingLaws::with_words_append))]
pub(crate) fn put_call(
    alloc: Global,
    out: &mut Octets,
    ask: &PlainAsk,
    lost: bool,
    answer: &PlainAnswer,
) -> Result<(), Memory>
    ensures { OnOk result (out.new.octets
        ≡ with_words out.old.octets
        (ask_words ask.now ++ (lost_words lost ++ answer_words answer.now))) }
{
    put_ask(alloc, out, ask)?;
    put_lost(out, lost)?;
    put_answer(alloc, out, answer)
}
