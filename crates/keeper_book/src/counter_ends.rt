ghost use Rattle.std.specs.Prelude.{◌≡◌};
ghost use Rattle.keeper_book.specs.CounterEnds.{end_of};

use crate::counters::Counter;
use crate::records::Record;

impl Record {
    /// The end of a counter of the association: no number of it reaches this one.
    pub fn end(&self, counter: Counter) -> u64
        ensures { result ≡ end_of self.now counter }
    {
        counter.extended_end()
    }
}
