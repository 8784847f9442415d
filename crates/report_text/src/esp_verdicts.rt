//! The verdicts on ESP packets that were delivered.

ghost use Rattle.std.specs.Prelude.{◌≡◌, [], ◌∷◌, ◌++◌, OnOk};
ghost use Rattle.line_fields.specs.Writing.{with_words};
ghost use Rattle.report_text.specs.Drops.{drop_words, dropped_packet};
ghost use Rattle.report_text.specs.Lines.{Accepted, Dropped};
ghost use Rattle.report_text.specs.Spelling.{verdict_words};

use crate::named::put_named_number;
use ha_base::{EspDrop, Memory, Octets};
use std::alloc::Global;
use word_text::{put_number, put_octets, put_word};

pub(crate) fn put_accepted(
    alloc: Global,
    out: &mut Octets,
    number: u64,
    next_header: u8,
    payload: &[u8],
) -> Result<(), Memory>
    ensures { OnOk result (out.new.octets
        ≡ with_words out.old.octets (verdict_words (Accepted number next_header payload.now))) }
{
    put_named_number(alloc, out, b"accepted", number)?;
    put_number(alloc, out, u64::from(next_header))?;
    put_octets(alloc, out, payload)
}

fn put_why(out: &mut Octets, why: EspDrop) -> Result<(), Memory>
    ensures { OnOk result (out.new.octets
        ≡ with_words out.old.octets (drop_words (dropped_packet why))) }
{
    match why {
        EspDrop::Short => put_word(out, b"short"),
        EspDrop::WrongSpi => put_word(out, b"wrong-spi"),
        EspDrop::Stale => put_word(out, b"stale"),
        EspDrop::Seen => put_word(out, b"seen"),
        EspDrop::NotOpened => put_word(out, b"not-opened"),
        EspDrop::Padding => put_word(out, b"padding"),
    }
}

pub(crate) fn put_dropped_packet(out: &mut Octets, why: EspDrop) -> Result<(), Memory>
    ensures { OnOk result (out.new.octets
        ≡ with_words out.old.octets (verdict_words (Dropped (dropped_packet why)))) }
{
    put_word(out, b"dropped")?;
    put_why(out, why)
}
