//! A reader that takes the lines of an input one by one, in pieces of whatever size, and takes no
//! memory for it.

ghost use Rattle.ha_base.specs.declared.limits.TheConstants.{INPUT_OCTETS, LINE_OCTETS, PIECE_OCTETS};
ghost use Rattle.std.specs.Prelude.{◌≡◌, ◌≤◌, ◌+◌, [], false, length, IfOk};
ghost use Rattle.input_lines.specs.Readers.{TakesAs};

use crate::pieces::Piece;
use crate::taking::{Found, Limits, take_line};
use ha_base::{INPUT_OCTETS, LINE_OCTETS, Memory, Source};
use std::alloc::Global;
use std::marker::Model;

/// What was taken.
#[derive(Clone, Copy)]
pub enum Took {
    /// A line.
    Line,
    /// Nothing: the input is at its end.
    End,
    /// The front of a line that has too many octets.
    LineTooLong,
    /// The front of a line, behind which the file has too many octets.
    FileTooLong,
    /// The front of a line, before a fault of the source.
    Failed,
}

/// What was read of an input, and the line that was taken last.
#[derive(Drop)]
pub struct LineReader {
    limits: Limits,
    line: Vec<u8>,
    piece: Piece,
    before: usize,
    unfed: bool,
}

impl Model for LineReader {
    ghost use Rattle.ha_base.specs.declared.limits.TheConstants.{PIECE_OCTETS};
    ghost use Rattle.std.specs.Prelude.{◌≡◌, ◌≤◌, [], length, true, vec_capacity};
    ghost use Rattle.input_lines.specs.Readers.{Reading};

    ghost Value = { Reading };

    ghost view = { λ r. record {
      limits = r.limits;
      line = r.line.items;
      kept = r.piece;
      before = r.before;
      unfed = r.unfed;
    } };

    ghost invariant = { λ r. (r.before ≤ r.limits.file) × (length r.line.items ≤ r.limits.line)
        × (r.limits.line ≤ vec_capacity r.line) × (length r.piece ≤ PIECE_OCTETS)
        × (r.unfed ≡ true → r.piece ≡ []) };
}

impl LineReader {
    /// A reader of an event file, or of messages, of which nothing was read. An error is want of
    /// memory.
    pub fn new(alloc: Global) -> Result<LineReader, Memory>
        ensures none { IfOk result (λ r. r.kept ≡ []) }
        ensures first { IfOk result (λ r. r.before ≡ 0) }
        ensures fed { IfOk result (λ r. r.unfed ≡ false) }
        ensures limits { IfOk result (λ r. r.limits
            ≡ record { line = LINE_OCTETS; file = INPUT_OCTETS }) }
    {
        let limits = Limits {
            line: LINE_OCTETS,
            file: INPUT_OCTETS,
        };
        LineReader::with_limits(alloc, limits)
    }

    /// A reader with limits of its own, of which nothing was read. An error is want of memory.
    pub fn with_limits(alloc: Global, limits: Limits) -> Result<LineReader, Memory>
        ensures none { IfOk result (λ r. r.kept ≡ []) }
        ensures first { IfOk result (λ r. r.before ≡ 0) }
        ensures fed { IfOk result (λ r. r.unfed ≡ false) }
        ensures limits { IfOk result (λ r. r.limits ≡ limits) }
    {
        let Ok(line) = Vec::with_capacity(alloc, limits.line) else {
            return Err(Memory);
        };
        let piece = Piece::new(alloc)?;
        Ok(LineReader {
            limits,
            line,
            piece,
            before: 0,
            unfed: false,
        })
    }

    /// Takes the next line, and reads for it what is needed; behind a last line that lacks its line
    /// feed it reads nothing. It is not to be called after another answer than a line.
    pub fn take<S: Source>(&mut self, source: &mut S) -> Took
        ensures takes { TakesAs self.old self.new (S.left source.old) (S.left source.new)
            (S.faults source.old) (S.faults source.new) result }
        ensures limits { self.new.limits ≡ self.old.limits }
        ensures piece { length self.new.kept ≤ PIECE_OCTETS }
    {
        self.line.clear();
        if self.unfed {
            return Took::End;
        }
        match take_line(
            self.limits,
            self.before,
            &mut self.line,
            &mut self.piece,
            source,
        ) {
            Found::Feed => {
                self.before += self.line.len() + 1;
                Took::Line
            }
            Found::End if self.line.is_empty() => Took::End,
            Found::End => {
                self.before += self.line.len();
                self.unfed = true;
                Took::Line
            }
            Found::LineTooLong => Took::LineTooLong,
            Found::FileTooLong => Took::FileTooLong,
            Found::Failed => Took::Failed,
        }
    }

    /// The line that was taken last, without its line feed, or the front of one.
    pub fn line(&self) -> &[u8]
        ensures { result.now ≡ self.now.line }
    {
        &self.line
    }

    /// How many octets are held.
    pub fn held(&self) -> usize
        ensures held { result ≡ length self.now.line + length self.now.kept }
        ensures most { result ≤ self.now.limits.line + PIECE_OCTETS }
    {
        self.line.len() + self.piece.as_slice().len()
    }
}
