//! The verdicts that refuse an event.

ghost use Rattle.std.specs.Prelude.{◌≡◌, ◌∷◌, ◌++◌, OnOk};
ghost use Rattle.line_fields.specs.Writing.{with_words};
ghost use Rattle.report_text.specs.Lines.{Refused};
ghost use Rattle.report_text.specs.Spelling.{refusal_words, verdict_words};

use crate::named::put_named_number;
use events::Refusal;
use ha_base::{Memory, Octets};
use std::alloc::Global;
use word_text::put_word;

fn put_refusal(alloc: Global, out: &mut Octets, refusal: Refusal) -> Result<(), Memory>
    ensures { OnOk result (out.new.octets ≡ with_words out.old.octets (refusal_words refusal)) }
{
    match refusal {
        Refusal::NotOwner => put_word(out, b"not-owner"),
        Refusal::Replaced(epoch) => put_named_number(alloc, out, b"replaced", epoch),
        Refusal::NotSynced => put_word(out, b"not-synced"),
        Refusal::WindowFull(id) => { put_named_number(alloc, out, b"window-full", u64::from(id)) }
        Refusal::Exhausted => put_word(out, b"exhausted"),
        Refusal::KeeperFault => put_word(out, b"keeper-fault"),
        Refusal::NotOutstanding(id) => {
            put_named_number(alloc, out, b"not-outstanding", u64::from(id))
        }
        Refusal::NoSync => put_word(out, b"no-sync"),
        Refusal::Closed => put_word(out, b"closed"),
        Refusal::Unknown => put_word(out, b"unknown"),
        Refusal::Full(limit) => put_named_number(alloc, out, b"full", limit),
        Refusal::SpiInUse => put_word(out, b"spi-in-use"),
        Refusal::NoMember => put_word(out, b"no-member"),
        Refusal::Down => put_word(out, b"down"),
        Refusal::NoDatagram => put_word(out, b"no-datagram"),
        Refusal::NoOctet => put_word(out, b"no-octet"),
        Refusal::DatagramsFull => put_word(out, b"datagrams-full"),
        Refusal::Late => put_word(out, b"late"),
        Refusal::NoRoom(members) => { put_named_number(alloc, out, b"no-room", u64::from(members)) }
        Refusal::SpiRange => put_word(out, b"spi-range"),
    }
}

pub(crate) fn put_refused(alloc: Global, out: &mut Octets, refusal: Refusal) -> Result<(), Memory>
    ensures { OnOk result (out.new.octets
        ≡ with_words out.old.octets (verdict_words (Refused refusal))) }
{
    put_word(out, b"refused")?;
    put_refusal(alloc, out, refusal)
}
