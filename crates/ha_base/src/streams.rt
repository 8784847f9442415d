ghost use Rattle.std.specs.Prelude.{◌≡◌, ℕ, ◌<◌, ◌≤◌, List, Option, length, IfOk, OnOk, OnErr};
ghost use Rattle.std.specs.Io.{ReadsAtMost, WritesAtMost};
ghost use Rattle.std.specs.Io.KnownBytes.{Appends, ReadConsumes, WriteAppends};
ghost use Rattle.ha_base.specs.Faults.{AppendsFront, Rose};

use crate::outside::Failed;

/// Where octets come from.
pub trait Source {
    // the octets that are still to be read, where the source tells them
    ghost left: { Self → Option (List ℕ) };

    // how many reads have failed
    ghost faults: { Self → ℕ };

    /// Reads octets to the front of a buffer and says how many. `Ok(0)` for a buffer that is not
    /// empty is the end of the input; an error is a fault of the source.
    fn read(&mut self, buf: &mut [u8]) -> Result<usize, Failed>
        ensures bound { ReadsAtMost result buf.new }
        ensures octets { ReadConsumes (left self.old) (left self.new) result buf.new }
        ensures later { faults self.old ≤ faults self.new }
        ensures none { OnOk result (faults self.new ≡ faults self.old) }
        ensures failed { OnErr result (Rose (faults self.old) (faults self.new)) };
}

/// Where octets go to.
pub trait Sink {
    // the octets that were written, where the sink tells them
    ghost written: { Self → Option (List ℕ) };

    // how many writes have failed
    ghost faults: { Self → ℕ };

    /// Writes octets from the front of a piece and says how many, at least one of a piece that is
    /// not empty. An error is a fault of the sink, and nothing was written.
    fn write(&mut self, piece: &[u8]) -> Result<usize, Failed>
        ensures bound { WritesAtMost result piece.now }
        ensures some { IfOk result (λ n. 0 < length piece.now → 0 < n) }
        ensures octets { WriteAppends (written self.old) (written self.new) result piece.now }
        ensures later { faults self.old ≤ faults self.new }
        ensures none { OnOk result (faults self.new ≡ faults self.old) }
        ensures failed { OnErr result (Rose (faults self.old) (faults self.new)) };
}

/// Writes all octets, as often as it takes. After an error, a fault of the sink, some of them were
/// written from the front.
pub fn write_all<O: Sink>(out: &mut O, octets: &[u8]) -> Result<(), Failed>
    ensures ok { OnOk result (Appends (O.written out.old) (O.written out.new) octets.now) }
    ensures err { OnErr result (AppendsFront (O.written out.old) (O.written out.new) octets.now) }
    ensures later { O.faults out.old ≤ O.faults out.new }
    ensures none { OnOk result (O.faults out.new ≡ O.faults out.old) }
    ensures failed { OnErr result (Rose (O.faults out.old) (O.faults out.new)) }
{
    let mut at = 0;
    while at < octets.len() {
        at += out.write(&octets[at..])?;
    }
    Ok(())
}
