//! Where octets are faulty, and why.

ghost use Rattle.std.specs.Prelude.{◌≡◌, ◌∷◌, ◌++◌, OnOk};
ghost use Rattle.line_fields.specs.Writing.{with_words};
ghost use Rattle.fault_text.specs.FaultWords.{bad_words, reason_words};

use ha_base::{Memory, Octets};
use ike_values::{Bad, Reason};
use std::alloc::Global;
use word_text::{put_number, put_word};

fn put_reason(alloc: Global, out: &mut Octets, reason: Reason) -> Result<(), Memory>
    ensures { OnOk result (out.new.octets ≡ with_words out.old.octets (reason_words reason)) }
{
    match reason {
        Reason::Short => put_word(out, b"short"),
        Reason::Length => put_word(out, b"length"),
        Reason::Version => put_word(out, b"version"),
        Reason::Field => put_word(out, b"field"),
        Reason::Trailing => put_word(out, b"trailing"),
        Reason::UnknownCritical(kind) => {
            put_word(out, b"unknown-critical")?;
            put_number(alloc, out, u64::from(kind))
        }
        Reason::SkNotLast => put_word(out, b"sk-not-last"),
    }
}

/// Appends the words of a fault: the place, counted in octets from 0, and the reason. An error is
/// want of memory, and the octets may then end in a part of the words.
#[tactic(auto, unfolding(crate::specs::FaultWords::bad_words))]
pub fn put_fault(alloc: Global, out: &mut Octets, fault: Bad) -> Result<(), Memory>
    ensures { OnOk result (out.new.octets
        ≡ with_words out.old.octets (bad_words fault.place fault.reason)) }
{
    put_number(alloc, out, fault.place as u64)?;
    put_reason(alloc, out, fault.reason)
}
