ghost use Rattle.std.specs.Prelude.{◌≡◌, ◌<◌, ◌≤◌, ◌==◌, [], ◌∷◌, ◌++◌, length, slice_get};
ghost use Rattle.std.specs.Option.{option_copied};

use crate::calls::Call;
use std::marker::Model;

/// At most eight calls, in order. It takes no memory.
#[derive(Drop)]
pub struct Calls {
    places: [Option<Call>; 8],
    count: usize,
}

impl Model for Calls {
    ghost use Rattle.std.specs.Prelude.{◌≡◌, ◌≤◌, List, length, take};
    ghost use Rattle.keeper_book.specs.declared.calls.Call.{Call};
    ghost use Rattle.keeper_book.specs.Places.{ArePlaced, placed};

    ghost Value = { List Call };

    ghost view = { λ calls. placed (take calls.count calls.places) };

    ghost invariant = { λ calls. ArePlaced calls.count calls.places };
}

impl Calls {
    /// No calls.
    pub fn none() -> Calls
        ensures { result ≡ [] }
    {
        Calls {
            places: [None, None, None, None, None, None, None, None],
            count: 0,
        }
    }

    /// How many calls there are.
    pub fn len(&self) -> usize
        ensures count { result ≡ length self.now }
        ensures within { result ≤ 8 }
    {
        self.count
    }

    /// There is no call.
    pub fn is_empty(&self) -> bool
        ensures { result ≡ (length self.now == 0) }
    {
        self.count == 0
    }

    /// Appends a call.
    pub fn push(&mut self, call: Call)
        requires { length self.old < 8 }
        ensures { self.new ≡ self.old ++ call ∷ [] }
    {
        self.places[self.count] = Some(call);
        self.count += 1;
    }

    /// The call at a place, counted from 0.
    pub fn get(&self, at: usize) -> Option<&Call>
        ensures { option_copied result ≡ slice_get self.now at }
    {
        if at < self.count {
            self.places[at].as_ref()
        } else {
            None
        }
    }
}
