ghost use Rattle.std.specs.Prelude.{◌≡◌, ◌+◌, ◌≤◌, ◌⊎◌, All, [], ◌∷◌, count_by, take};
ghost use Rattle.redirects.specs.Follows.{IsDecision, IsLoop, is_recent, kept_of};

use crate::asked::Asked;
use crate::decision::Decision;
use crate::limits::{KEPT_FOLLOWS, LOOP_DETECT_PERIOD, MAX_REDIRECTS};
use arrayvec::ArrayVec;
use ha_base::Moment;
use std::marker::Model;

/// The moments at which the last five redirects were followed, the latest first.
///
/// It needs no memory beyond its own.
#[derive(Drop)]
pub struct Follows {
    moments: ArrayVec<u64, KEPT_FOLLOWS>,
}

impl Model for Follows {
    ghost use Rattle.std.specs.Prelude.{ℕ, List};

    ghost Value = { List ℕ };

    ghost view = { λ follows. follows.moments.items };
}

impl Follows {
    /// No redirect was followed.
    pub fn new() -> Follows
        ensures { result ≡ [] }
    {
        Follows {
            moments: ArrayVec::new(),
        }
    }

    /// How many of the follows are recent.
    fn recent(&self, now: u64) -> u32
        requires { All (λ moment. moment ≤ now) self.now }
        ensures { result ≡ count_by (is_recent now) self.now }
    {
        let mut recent = 0;
        for moment in self.moments.as_slice() {
            if now - *moment < LOOP_DETECT_PERIOD {
                recent += 1;
            }
        }
        recent
    }

    /// Follows a redirect, where it makes no loop.
    fn follow_unless_loop(&mut self, now: u64) -> Decision
        requires { All (λ moment. moment ≤ now) self.old }
        ensures { (IsLoop self.old now × (result ≡ Decision.Loop MAX_REDIRECTS)
            × (self.new ≡ self.old))
            ⊎ ((¬ IsLoop self.old now) × (result ≡ Decision.Follow)
            × (self.new ≡ kept_of (now ∷ self.old))) }
    {
        if self.recent(now) >= MAX_REDIRECTS {
            return Decision::Loop(MAX_REDIRECTS);
        }
        self.add(now);
        Decision::Follow
    }

    /// Adds a follow, and drops the sixth.
    fn add(&mut self, now: u64)
        ensures { self.new ≡ kept_of (now ∷ self.old) }
    {
        if self.moments.is_full() {
            let _ = self.moments.pop();
        }
        self.moments.insert(0, now);
    }
}

/// Decides whether a redirect is followed now, and keeps the moment where it is.
///
/// `asked` is what it answers, and `nonce` is the nonce that it carries, which counts only where it
/// answers a request to resume. No follow of the history may be later than `now`. It takes no
/// memory.
pub fn follow(history: &mut Follows, now: Moment, asked: Asked, nonce: &[u8]) -> Decision
    requires { All (λ moment. moment ≤ now.0) history.old }
    ensures decision { IsDecision history.old now.0 asked nonce.now result }
    ensures followed { result ≡ Decision.Follow → history.new ≡ kept_of (now.0 ∷ history.old) }
    ensures none_later { All (λ moment. moment ≤ now.0) history.new }
    ensures unchanged { ¬ (result ≡ Decision.Follow) → history.new ≡ history.old }
{
    match asked {
        Asked::No => Decision::Unasked,
        Asked::Resumption(ni) if nonce != ni.as_slice() => Decision::Nonce,
        Asked::Session | Asked::Resumption(_) => history.follow_unless_loop(now.0),
    }
}
