ghost use Rattle.std.specs.Prelude.{◌≡◌, ◌+◌, ◌<◌, ◌≤◌, ◌↔◌, ◌⊎◌, [], length, take, min, Some, IsTrue, IsErr, IfOk, OnOk, OnErr, Contains};
ghost use Rattle.std.specs.Io.{ReadsAtMost, WritesAtMost};
ghost use Rattle.std.specs.Io.KnownBytes.{ReadConsumes, WriteAppends};
ghost use Rattle.ha_base.specs.Faults.{one_more};

use crate::octet_store::Octets;
use crate::outside::{Failed, Memory};
use crate::streams::{Sink, Source};
use std::alloc::Global;
use std::marker::Model;

// Calls from this one on are not told apart, since no octet names them.
const LAST_CALL: u16 = 256;

fn names_call(calls: &[u8], call: u16) -> bool
    ensures { IsTrue result ↔ Contains calls.now call }
{
    for named in calls {
        if u16::from(*named) == call {
            return true;
        }
    }
    false
}

fn copy_front(octets: &[u8], most: usize, buf: &mut [u8]) -> usize
    ensures count { result ≡ min (min most (length buf.old)) (length octets.now) }
    ensures copied { take result buf.new ≡ take result octets.now }
{
    let n = most.min(buf.len()).min(octets.len());
    buf[..n].copy_from_slice(&octets[..n]);
    n
}

/// A source of octets in memory, which gives them in pieces and may be told to fail.
#[derive(Drop)]
pub struct MemorySource {
    octets: Octets,
    at: usize,
    piece: usize,
    fails: Octets,
    calls: u16,
    faults: u64,
}

impl Model for MemorySource {
    ghost use Rattle.std.specs.Prelude.{◌<◌, ◌≤◌, length, drop};
    ghost use Rattle.ha_base.specs.MemoryStreams.{SourceState};

    ghost Value = { SourceState };

    ghost view = { λ s. record {
      left = drop s.at s.octets.octets;
      piece = s.piece;
      fails = s.fails.octets;
      calls = s.calls;
      faults = s.faults;
    } };

    ghost invariant = { λ s. (s.at ≤ length s.octets.octets) × (0 < s.piece) };
}

impl MemorySource {
    /// A source of these octets, which gives at most `piece` of them a read. The k-th read, from 0,
    /// fails where `fails` has k.
    pub fn new(octets: Octets, piece: usize, fails: Octets) -> MemorySource
        requires { 0 < piece }
        ensures left { result.left ≡ octets.octets }
        ensures piece { result.piece ≡ piece }
        ensures fails { result.fails ≡ fails.octets }
        ensures calls { result.calls ≡ 0 }
        ensures faults { result.faults ≡ 0 }
    {
        MemorySource {
            octets,
            at: 0,
            piece,
            fails,
            calls: 0,
            faults: 0,
        }
    }
}

impl Source for MemorySource {
    ghost left = { λ s. Some s.left };

    ghost faults = { λ s. s.faults };

    fn read(&mut self, buf: &mut [u8]) -> Result<usize, Failed>
        ensures bound { ReadsAtMost result buf.new }
        ensures octets { ReadConsumes (Some self.old.left) (Some self.new.left) result buf.new }
        ensures later { self.old.faults ≤ self.new.faults }
        ensures none { OnOk result (self.new.faults ≡ self.old.faults) }
        ensures failed { OnErr result (self.new.faults ≡ one_more self.old.faults) }
        ensures fails { IsErr result ↔ Contains self.old.fails self.old.calls }
        ensures most { IfOk result (λ n. n ≡ min (min self.old.piece (length buf.old))
            (length self.old.left)) }
        ensures calls { self.new.calls ≡ min (self.old.calls + 1) 256 }
        ensures piece { self.new.piece ≡ self.old.piece }
        ensures plan { self.new.fails ≡ self.old.fails }
    {
        let call = self.calls;
        self.calls = call.min(LAST_CALL - 1) + 1;
        if names_call(self.fails.as_slice(), call) {
            self.faults = self.faults.saturating_add(1);
            return Err(Failed);
        }
        let n = copy_front(&self.octets.as_slice()[self.at..], self.piece, buf);
        self.at += n;
        Ok(n)
    }
}

/// A sink in memory, which takes octets in pieces into room that it reserved, and may be told to
/// fail.
#[derive(Drop)]
pub struct MemorySink {
    octets: Octets,
    room: usize,
    piece: usize,
    fails: Octets,
    calls: u16,
    faults: u64,
}

impl Model for MemorySink {
    ghost use Rattle.std.specs.Prelude.{◌<◌, ◌≤◌};
    ghost use Rattle.ha_base.specs.MemoryStreams.{SinkState};

    ghost Value = { SinkState };

    ghost view = { λ s. record {
      written = s.octets.octets;
      room = s.room;
      piece = s.piece;
      fails = s.fails.octets;
      calls = s.calls;
      faults = s.faults;
    } };

    ghost invariant = { λ s. (s.room ≤ s.octets.spare) × (0 < s.piece) };
}

impl MemorySink {
    /// A sink with room for `room` octets, which takes at most `piece` of them a write. The k-th
    /// write, from 0, fails where `fails` has k, and where there is no room for a piece that is not
    /// empty. An error is want of memory.
    pub fn new(
        alloc: Global,
        room: usize,
        piece: usize,
        fails: Octets,
    ) -> Result<MemorySink, Memory>
        requires { 0 < piece }
        ensures written { IfOk result (λ s. s.written ≡ []) }
        ensures room { IfOk result (λ s. s.room ≡ room) }
        ensures piece { IfOk result (λ s. s.piece ≡ piece) }
        ensures fails { IfOk result (λ s. s.fails ≡ fails.octets) }
        ensures calls { IfOk result (λ s. s.calls ≡ 0) }
        ensures faults { IfOk result (λ s. s.faults ≡ 0) }
    {
        let octets = Octets::with_room(alloc, room)?;
        Ok(MemorySink {
            octets,
            room,
            piece,
            fails,
            calls: 0,
            faults: 0,
        })
    }

    /// The octets that were written.
    pub fn written(&self) -> &[u8]
        ensures { result.now ≡ self.now.written }
    {
        self.octets.as_slice()
    }
}

impl Sink for MemorySink {
    ghost written = { λ s. Some s.written };

    ghost faults = { λ s. s.faults };

    fn write(&mut self, piece: &[u8]) -> Result<usize, Failed>
        ensures bound { WritesAtMost result piece.now }
        ensures some { IfOk result (λ n. 0 < length piece.now → 0 < n) }
        ensures octets { WriteAppends (Some self.old.written)
            (Some self.new.written) result piece.now }
        ensures later { self.old.faults ≤ self.new.faults }
        ensures none { OnOk result (self.new.faults ≡ self.old.faults) }
        ensures failed { OnErr result (self.new.faults ≡ one_more self.old.faults) }
        ensures fails { IsErr result ↔ (Contains self.old.fails self.old.calls
            ⊎ ((0 < length piece.now) × (self.old.room ≡ 0))) }
        ensures most { IfOk result (λ n. n ≡ min (min self.old.piece
            (length piece.now)) self.old.room) }
        ensures room { IfOk result (λ n. self.new.room + n ≡ self.old.room) }
        ensures calls { self.new.calls ≡ min (self.old.calls + 1) 256 }
        ensures same { (self.new.piece ≡ self.old.piece) × (self.new.fails ≡ self.old.fails) }
    {
        let call = self.calls;
        self.calls = call.min(LAST_CALL - 1) + 1;
        if names_call(self.fails.as_slice(), call) || (!piece.is_empty() && self.room == 0) {
            self.faults = self.faults.saturating_add(1);
            return Err(Failed);
        }
        let n = self.piece.min(piece.len()).min(self.room);
        match self.octets.extend(&piece[..n]) {
            Ok(()) => self.room -= n,
            Err(_) => unreachable!(),
        }
        Ok(n)
    }
}
