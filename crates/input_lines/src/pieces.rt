//! Octets that were read and are not taken yet.

ghost use Rattle.ha_base.specs.declared.limits.TheConstants.{PIECE_OCTETS};
ghost use Rattle.std.specs.Prelude.{◌≡◌, ◌≤◌, [], ◌∷◌, drop, length, Ok, IfOk, IfNone, IfSome, OnErr, OnOk};
ghost use Rattle.std.specs.Io.KnownBytes.{Consumes, IsAtEnd};
ghost use Rattle.ha_base.specs.Faults.{Rose};

use ha_base::{Failed, Memory, PIECE_OCTETS, Source};
use std::alloc::Global;
use std::marker::Model;

/// What a read gave, but for what was taken of it.
#[derive(Drop)]
pub(crate) struct Piece {
    octets: Vec<u8>,
    start: usize,
    end: usize,
}

impl Model for Piece {
    ghost use Rattle.ha_base.specs.declared.limits.TheConstants.{PIECE_OCTETS};
    ghost use Rattle.std.specs.Prelude.{ℕ, ◌-◌, ◌≡◌, ◌≤◌, List, drop, length, take};

    ghost Value = { List ℕ };

    ghost view = { λ p. take (p.end - p.start) (drop p.start p.octets.items) };

    ghost invariant = { λ p. (p.start ≤ p.end) × (p.end ≤ length p.octets.items)
        × (length p.octets.items ≡ PIECE_OCTETS) };
}

impl Piece {
    /// A piece of which nothing was read. An error is want of memory.
    pub(crate) fn new(alloc: Global) -> Result<Piece, Memory>
        ensures { IfOk result (λ piece. piece ≡ []) }
    {
        let mut octets = Vec::new(alloc);
        if octets.resize(PIECE_OCTETS, 0).is_err() {
            return Err(Memory);
        }
        Ok(Piece {
            octets,
            start: 0,
            end: 0,
        })
    }

    /// What is not taken yet.
    pub(crate) fn as_slice(&self) -> &[u8]
        ensures value { result.now ≡ self.now }
        ensures short { length self.now ≤ PIECE_OCTETS }
    {
        &self.octets[self.start..self.end]
    }

    /// The first octet that is not taken yet, if one is left.
    pub(crate) fn first(&self) -> Option<u8>
        ensures none { IfNone result (self.now ≡ []) }
        ensures some { IfSome result (λ octet. self.now ≡ octet ∷ drop 1 self.now) }
    {
        match self.as_slice() {
            [] => None,
            [octet, ..] => Some(*octet),
        }
    }

    /// Takes octets from the front.
    pub(crate) fn advance(&mut self, count: usize)
        requires { count ≤ length self.old }
        ensures { self.new ≡ drop count self.old }
    {
        self.start += count;
    }

    /// Reads the next octets, where none is left, and says how many. None is the end of the input,
    /// and an error a fault of the source.
    pub(crate) fn fill<S: Source>(&mut self, source: &mut S) -> Result<usize, Failed>
        requires { self.old ≡ [] }
        ensures read { Consumes (S.left source.old) (S.left source.new) self.new }
        ensures short { length self.new ≤ PIECE_OCTETS }
        ensures count { IfOk result (λ n. n ≡ length self.new) }
        ensures end { result ≡ Ok 0 → IsAtEnd (S.left source.new) }
        ensures none { OnOk result (S.faults source.new ≡ S.faults source.old) }
        ensures failed { OnErr result (Rose (S.faults source.old) (S.faults source.new)) }
        ensures err { OnErr result (self.new ≡ []) }
    {
        self.start = 0;
        self.end = 0;
        let count = source.read(&mut self.octets)?;
        self.end = count;
        Ok(count)
    }
}
