//! A service whose replies tell of their requests.

ghost use Rattle.std.specs.Prelude.{◌≡◌, ◌∷◌, take};

use ha_base::{LONGEST_REQUEST, OctetArray, Reply, Service};

/// A service that replies with the octet `ee` and the first 255 octets of the request.
#[derive(Drop)]
pub struct EchoService {
    executed: u64,
    last: Option<OctetArray<256>>,
}

impl EchoService {
    /// A service that has executed nothing.
    pub fn new() -> EchoService
        ensures count { ⟦<EchoService as Service>⟧.count result ≡ 0 }
    {
        EchoService {
            executed: 0,
            last: None,
        }
    }
}

impl Service for EchoService {
    ghost count = { λ s. s.executed };

    ghost last = { λ s. s.last };

    ghost gives = { λ _ _ request reply. reply ≡ 238 ∷ take 255 request };

    fn execute(&mut self, request: &[u8]) -> Reply {
        self.executed += 1;
        self.last = Some(OctetArray::from_slice(request));
        let mut octets = OctetArray::new();
        octets.push(0xee);
        for octet in &request[..(LONGEST_REQUEST - 1).min(request.len())] {
            octets.push(*octet);
        }
        Reply { octets }
    }

    fn executed(&self) -> u64 {
        self.executed
    }
}
