//! A line as words, parted by single spaces.

ghost use Rattle.std.specs.Prelude.{◌≡◌, ◌≤◌, ◌<◌, ◌+◌, ◌∷◌, length, MatchResult};
ghost use Rattle.ha_base.specs.declared.limits.TheConstants.{LINE_OCTETS};
ghost use Rattle.line_fields.specs.Words.{Cursor, words_of, words_from, octets_left};
ghost use Rattle.line_fields.specs.Fields.{Reads, word_at, ended_at};

use crate::fault::{LineFault, LineReason};
use crate::split::octets_before;
use std::marker::Model;

/// The first word, and what stands behind the space after it, if there is one.
#[tactic(auto, using(crate::proofs::WordLaws::words_split, crate::proofs::WordLaws::words_whole))]
fn first_word(line: &[u8]) -> (&[u8], Option<&[u8]>)
    ensures words { words_of line.now ≡ result.0.now ∷ words_from result.1 }
    ensures octets { length result.0.now + octets_left result.1 ≡ length line.now }
{
    let len = octets_before(line, b' ');
    if len < line.len() {
        (&line[..len], Some(&line[len + 1..]))
    } else {
        (line, None)
    }
}

/// What is left of a line, and the column of the next word.
#[derive(Drop)]
pub struct Words<'a> {
    rest: Option<&'a [u8]>,
    column: u32,
}

impl<'a> Model for Words<'a> {
    ghost Value = { Cursor };

    ghost view = { λ w. record { column = w.column; words = words_from w.rest } };

    ghost invariant = { λ w. w.column + octets_left w.rest ≤ LINE_OCTETS + 2 };
}

impl<'a> Words<'a> {
    /// All words of a line.
    pub fn new(line: &'a [u8]) -> Self
        requires { length line.now ≤ LINE_OCTETS }
        ensures { result ≡ record { column = 1; words = words_of line.now } }
    {
        Words {
            rest: Some(line),
            column: 1,
        }
    }

    /// The column of the next word, whether it is there or not.
    pub fn column(&self) -> u32
        ensures { result ≡ self.now.column }
    {
        self.column
    }

    /// Takes the next word.
    pub fn word(&mut self) -> Result<&'a [u8], LineFault>
        ensures { Reads (λ w. w.now) result self.new (word_at self.old) }
    {
        let column = self.column;
        let Some(rest) = self.rest else {
            return Err(LineFault {
                column,
                reason: LineReason::Missing,
            });
        };
        let (word, rest) = first_word(rest);
        self.rest = rest;
        self.column += word.len() as u32 + 1;
        Ok(word)
    }

    /// Fails where a word is left.
    pub fn end(&self) -> Result<(), LineFault>
        ensures { MatchResult result (λ _. ended_at self.now ≡ Ok tt)
            (λ f. ended_at self.now ≡ Err f) }
    {
        match self.rest {
            None => Ok(()),
            Some(_) => Err(LineFault {
                column: self.column,
                reason: LineReason::Extra,
            }),
        }
    }
}
