ghost use Rattle.std.specs.Prelude.{◌≡◌, [], ◌∷◌, Some};
ghost use Rattle.events.specs.declared.turn.Medium.TheVariants.{Ike};
ghost use Rattle.events.specs.declared.verdict.Verdict.TheVariants as out;
ghost use Rattle.turn_rules.specs.Messages.{GivesAgain};
ghost use Rattle.turn_rules.specs.Steps.{Says};

use events::{Datagram, IkeDrop, Seals, Served, Step, Verdict};
use ike_sas::SentMessage;

/// The step in which a message was sent, with this verdict, and what a service executed before.
pub fn sent_step(verdict: Verdict, served: Option<Served>, sent: SentMessage) -> Step
    ensures verdict { result.verdict ≡ verdict }
    ensures served { result.served ≡ served }
    ensures seals { result.seals ≡ sent.seal ∷ [] }
    ensures gives { result.gives ≡ Some sent.datagram }
{
    let SentMessage { seal, datagram } = sent;
    let mut seals = Seals::none();
    seals.push(seal);
    Step {
        verdict,
        served,
        seals,
        gives: Some(datagram),
    }
}

/// The step in which octets that were kept are given once more.
pub(crate) fn given_again(verdict: Verdict, datagram: Datagram) -> Step
    requires { datagram.medium ≡ Ike }
    ensures { GivesAgain verdict datagram.octets.octets result }
{
    Step {
        verdict,
        served: None,
        seals: Seals::none(),
        gives: Some(datagram),
    }
}

/// A request came that was answered before: its Message ID, and the response that was kept, which
/// is given once more, with the same octets (RFC 7296, section 2.1).
pub fn repeat(id: u32, datagram: Datagram) -> Step
    requires { datagram.medium ≡ Ike }
    ensures { GivesAgain (out.Repeated id) datagram.octets.octets result }
{
    given_again(Verdict::Repeated(id), datagram)
}

/// A message came that is dropped. Nothing is done.
pub fn drop_message(why: IkeDrop) -> Step
    ensures { Says (out.DroppedIke why) result }
{
    Step::quiet(Verdict::DroppedIke(why))
}
