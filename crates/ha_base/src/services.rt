ghost use Rattle.std.specs.Prelude.{◌≡◌, ℕ, ◌+◌, ◌<◌, ◌≤◌, ◌^◌, ◌↔◌, List, Option, IsTrue, Some, None, length};
ghost use Rattle.std.specs.Int.{bytes_high_first};
ghost use Rattle.std.specs.List.{AllByRecursion};
ghost use Rattle.ha_base.specs.Services.{ReplyRelation};
ghost use Rattle.ha_base.specs.declared.services.TheConstants.{LONGEST_REQUEST};

use crate::short_lists::OctetArray;

/// How many requests a service may execute.
pub const MOST_REQUESTS: u64 = 1 << 40;

/// The longest request, in octets.
pub const LONGEST_REQUEST: usize = 256;

/// What a service gives back for a request.
#[derive(Clone, Copy, Debug, PartialEq, Eq)]
pub struct Reply {
    pub octets: OctetArray<256>,
}

/// Who executes requests.
pub trait Service: Drop {
    // how many requests were executed
    ghost count: { Self → ℕ };

    // the last of them
    ghost last: { Self → Option (List ℕ) };

    // what may be the reply to a request that is executed as the n-th
    ghost gives: { Self → ReplyRelation };

    /// Executes a request of at most 256 octets and gives the reply.
    fn execute(&mut self, request: &[u8]) -> Reply
        requires room { count self.old < MOST_REQUESTS }
        requires short { length request.now ≤ LONGEST_REQUEST }
        ensures counted { count self.new ≡ count self.old + 1 }
        ensures last { last self.new ≡ Some request.now }
        ensures gives { gives self.old (count self.old + 1) request.now result.octets }
        ensures same { (n : ℕ) (request reply : List ℕ)
            → gives self.new n request reply ↔ gives self.old n request reply };

    /// How many requests were executed.
    fn executed(&self) -> u64
        ensures { result ≡ count self.now };
}

fn is_fresh(service: &Box<dyn Service>) -> bool
    ensures { IsTrue result ↔ (count service.now ≡ 0) }
{
    service.executed() == 0
}

/// Whether no service has executed anything.
pub fn are_fresh(services: &Vec<Box<dyn Service>>) -> bool
    ensures { IsTrue result ↔ AllByRecursion (λ service. count service ≡ 0) services.now.items }
{
    for service in services {
        if !is_fresh(service) {
            return false;
        }
    }
    true
}

/// A service that replies with its count, in 8 octets.
#[derive(Drop)]
pub struct TallyService {
    executed: u64,
    last: Option<OctetArray<256>>,
}

impl TallyService {
    /// A service that has executed nothing.
    pub fn new() -> TallyService
        ensures count { ⟦<TallyService as Service>⟧.count result ≡ 0 }
        ensures last { ⟦<TallyService as Service>⟧.last result ≡ None }
        ensures gives { (n : ℕ) (request reply : List ℕ)
            → ⟦<TallyService as Service>⟧.gives result n request reply
            ↔ (reply ≡ bytes_high_first 8 n) }
    {
        TallyService {
            executed: 0,
            last: None,
        }
    }
}

impl Service for TallyService {
    ghost count = { λ s. s.executed };

    ghost last = { λ s. s.last };

    ghost gives = { λ _ n _ reply. reply ≡ bytes_high_first 8 n };

    fn execute(&mut self, request: &[u8]) -> Reply {
        self.executed += 1;
        self.last = Some(OctetArray::from_slice(request));
        Reply {
            octets: OctetArray::from_slice(&self.executed.to_be_bytes()),
        }
    }

    fn executed(&self) -> u64 {
        self.executed
    }
}
