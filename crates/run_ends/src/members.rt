//! How members join and end, and where they stand.

ghost use Rattle.std.specs.Prelude.{◌≡◌, ◌<◌, None, true, [], List, IfOk, OnErr, length};
ghost use Rattle.events.specs.declared.event.Event.TheVariants as event;
ghost use Rattle.events.specs.declared.turn.Turn.{Turn};
ghost use Rattle.ha_base.specs.declared.outside.Moment.{Moment};
ghost use Rattle.turn_rules.specs.Fits.{MAX_MEMBERS};
ghost use Rattle.run_ends.specs.Parties.{Acts, AreInPlace, IsMemberPlace, has_member};

use crate::parties::Parties;
use cluster_member::Member;
use events::{Step, Verdict};
use ha_base::Memory;

impl Parties {
    /// A member joins, where there is room for one more.
    pub(crate) fn join(&mut self, fresh: [u8; 24]) -> Result<Step, Memory>
        requires room { length self.old.members < MAX_MEMBERS }
        requires in_place { AreInPlace self.old }
        ensures joins { IfOk result (λ step. (past : List Turn) (now : Moment)
            → Acts past self.old now (event.Join fresh) [] step self.new) }
        ensures alone { IfOk result (λ step. step.served ≡ None) }
        ensures err { OnErr result (self.new ≡ self.old) }
    {
        if self.members.reserve(1).is_err() {
            return Err(Memory);
        }
        let number = self.members.len() as u32 + 1;
        let member = Member::join(self.alloc, number, self.settings.config(), fresh);
        self.members.push_reserved(Some(member));
        Ok(Step::quiet(Verdict::Member(number)))
    }

    /// Whether a member of this number has joined.
    pub(crate) fn has_member(&self, member: u64) -> bool
        ensures { result ≡ has_member member self.now.members }
    {
        member > 0 && member <= self.members.len() as u64
    }

    /// Where a member that has joined stands.
    pub(crate) fn place_of(&self, member: u64) -> usize
        requires { has_member member self.now.members ≡ true }
        ensures { IsMemberPlace member result self.now.members }
    {
        (member - 1) as usize
    }

    /// Ends a member. It never returns.
    pub(crate) fn crash(&mut self, member: u64) -> Step
        requires joined { has_member member self.old.members ≡ true }
        requires in_place { AreInPlace self.old }
        ensures crashes { (past : List Turn) (now : Moment)
            → Acts past self.old now (event.Crash member) [] result self.new }
        ensures alone { result.served ≡ None }
    {
        let place = self.place_of(member);
        self.members[place] = None;
        Step::quiet(Verdict::Down)
    }
}
