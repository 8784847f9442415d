//! Octets up to a line feed, to the end of the input, or to a limit.

ghost use Rattle.ha_base.specs.declared.limits.TheConstants.{PIECE_OCTETS};
ghost use Rattle.std.specs.Prelude.{◌≡◌, ◌≢◌, ◌+◌, ◌≤◌, ◌<◌, ◌++◌, [], length, true, vec_capacity, IfNone, IfSome};
ghost use Rattle.std.specs.List.{list_all};
ghost use Rattle.input_lines.specs.Lines.{no_feed};
ghost use Rattle.input_lines.specs.Taking.{EndsFront, Finds, IsEnding};

use crate::pieces::Piece;
use ha_base::{Failed, Source};
use line_fields::octets_before;

/// How many octets a line may have, without its line feed, and a file.
#[derive(Clone, Copy)]
pub struct Limits {
    pub line: usize,
    pub file: usize,
}

/// Where octets end.
#[derive(Clone, Copy)]
pub(crate) enum Found {
    /// At a line feed, which was taken.
    Feed,
    /// At the end of the input.
    End,
    /// At an octet that the line is too long for.
    LineTooLong,
    /// At an octet that the file is too long for.
    FileTooLong,
    /// At a fault of the source.
    Failed,
}

// Moves octets to the line up to a line feed, and within the limits.
fn take_front(limits: Limits, before: usize, line: &mut Vec<u8>, piece: &mut Piece)
    requires short { length line.old.items ≤ limits.line }
    requires within { before + length line.old.items ≤ limits.file }
    requires room { limits.line ≤ vec_capacity line.old }
    ensures parts { line.new.items ++ piece.new ≡ line.old.items ++ piece.old }
    ensures feedless { list_all no_feed line.old.items ≡ true
        → list_all no_feed line.new.items ≡ true }
    ensures short { length line.new.items ≤ limits.line }
    ensures within { before + length line.new.items ≤ limits.file }
    ensures room { limits.line ≤ vec_capacity line.new }
    ensures fewer { length piece.new ≤ length piece.old }
    ensures longer { 0 < length piece.old → piece.new ≡ []
        → length line.old.items < length line.new.items }
    ensures stops { EndsFront limits before (length line.new.items) piece.new }
{
    let octets = piece.as_slice();
    let room = (limits.line - line.len()).min(limits.file - before - line.len());
    let size = octets_before(octets, b'\n').min(room);
    if line.extend_from_slice(&octets[..size]).is_err() {
        unreachable!();
    }
    piece.advance(size);
}

// Where octets end that were taken up to a line feed or to a limit, if more are left. A line feed
// is taken.
fn ending(limits: Limits, before: usize, len: usize, piece: &mut Piece) -> Option<Found>
    requires stops { EndsFront limits before len piece.old }
    requires within { before + len ≤ limits.file }
    requires short { len ≤ limits.line }
    ensures none { IfNone result (piece.new ≡ []) }
    ensures fewer { length piece.new ≤ length piece.old }
    ensures stays { IfNone result (piece.new ≡ piece.old) }
    ensures found { IfSome result (IsEnding limits before len piece.old piece.new) }
{
    let Some(octet) = piece.first() else {
        return None;
    };
    if octet != b'\n' {
        return Some(if len == limits.line {
            Found::LineTooLong
        } else {
            Found::FileTooLong
        });
    }
    if before + len == limits.file {
        return Some(Found::FileTooLong);
    }
    piece.advance(1);
    Some(Found::Feed)
}

// Takes the next line, or the front of one, from the piece and the source.
pub(crate) fn take_line<S: Source>(
    limits: Limits,
    before: usize,
    line: &mut Vec<u8>,
    piece: &mut Piece,
    source: &mut S,
) -> Found
    requires none { line.old.items ≡ [] }
    requires within { before ≤ limits.file }
    requires room { limits.line ≤ vec_capacity line.old }
    requires piece { length piece.old ≤ PIECE_OCTETS }
    ensures room { limits.line ≤ vec_capacity line.new }
    ensures piece { length piece.new ≤ PIECE_OCTETS }
    ensures finds { Finds limits before piece.old line.new.items piece.new (S.left source.old)
        (S.left source.new) (S.faults source.old) (S.faults source.new) result }
{
    'pieces: loop {
        if piece.as_slice().is_empty() {
            match piece.fill(source) {
                Ok(0) => return Found::End,
                Ok(_) => {}
                Err(Failed) => return Found::Failed,
            }
        }
        take_front(limits, before, line, piece);
        if let Some(found) = ending(limits, before, line.len(), piece) {
            return found;
        }
    }
}
