ghost use Rattle.std.specs.Prelude.{◌≡◌, ℕ, ◌+◌, ◌<◌, ◌≤◌, [], IfSome, IfNone, SomeIff};
ghost use Rattle.replay_set.specs.Window.{IsWindowSize, IsMeant, is_noted, judged, with_noted, window_of};
ghost use Rattle.ha_base.specs.declared.limits.TheConstants.{SEQUENCE_END};

use super::judgement::Judgement;
use super::ring::Ring;
use ha_base::SEQUENCE_END;
use std::marker::Model;

/// A receive window: which of the newest sequence numbers were noted.
///
/// It needs no memory beyond its own, whatever the window.
#[derive(Drop)]
pub struct ReplaySet {
    window: u32,
    base: u64,
    // one above the greatest noted number, or the base where none was noted
    next: u64,
    // which of the numbers below `next` were noted
    ring: Ring,
}

impl Model for ReplaySet {
    ghost use Rattle.std.specs.Prelude.{◌≤◌, filter};
    ghost use Rattle.replay_set.specs.Ring.{is_marked};
    ghost use Rattle.replay_set.specs.Window.{Window, numbers_below};

    ghost Value = { Window };

    ghost view = { λ s. record {
      size = s.window;
      base = s.base;
      next = s.next;
      noted = filter (is_marked s.ring.words) (numbers_below s.next s.window);
    } };

    ghost invariant = { λ s. s.window ≤ 1024 };
}

impl ReplaySet {
    /// A window in which nothing was noted and no number is below `base`.
    ///
    /// `window` is how many numbers it has. None exactly where that is not 64, 128, 256, 512 or
    /// 1024.
    pub fn new(window: u32, base: u64) -> Option<ReplaySet>
        ensures { SomeIff result (IsWindowSize window) (window_of window base []) }
    {
        match window {
            64 | 128 | 256 | 512 | 1024 => Some(ReplaySet {
                window,
                base,
                next: base,
                ring: Ring::new(),
            }),
            _ => None,
        }
    }

    /// The sequence number that is meant by its low 32 bits (RFC 4303, Appendix A): the one that
    /// has them, of the 2^32 numbers from the least of the window on. None exactly where it is
    /// below zero or at or above 2^63.
    pub fn meant(&self, low32: u32) -> Option<u64>
        ensures found { IfSome result (λ n. IsMeant self.now low32 n) }
        ensures none { IfNone result ((n : ℕ) → IsMeant self.now low32 n → SEQUENCE_END ≤ n) }
        ensures below { IfSome result (λ n. n < SEQUENCE_END) }
    {
        let ahead = low32
            .wrapping_add(self.window)
            .wrapping_sub((self.next % (1 << 32)) as u32);
        let above = self.next.checked_add(u64::from(ahead))?;
        let number = above.checked_sub(u64::from(self.window))?;
        if number < SEQUENCE_END {
            Some(number)
        } else {
            None
        }
    }

    /// What the window says of a number.
    pub fn judge(&self, n: u64) -> Judgement
        ensures { result ≡ judged self.now n }
    {
        if n < self.base || self.next.saturating_sub(n) > u64::from(self.window) {
            Judgement::Stale
        } else if self.has(n) {
            Judgement::Seen
        } else {
            Judgement::Fresh
        }
    }

    /// Whether a number that is not below the window was noted.
    fn has(&self, n: u64) -> bool
        requires { self.now.next ≤ n + self.now.size }
        ensures { result ≡ is_noted self.now n }
    {
        n < self.next && self.ring.has(n)
    }

    /// Notes a number. The window moves up to it where it is above all the others.
    pub fn note(&mut self, n: u64)
        requires fresh { judged self.old n ≡ Judgement.Fresh }
        requires below_the_end { n < SEQUENCE_END }
        ensures { self.new ≡ with_noted self.old n }
    {
        if n >= self.next {
            self.ring.clear(self.next, n + 1);
            self.next = n + 1;
        }
        self.ring.mark(n);
    }
}
