//! How the ends of a run are configured.

ghost use Rattle.std.specs.Prelude.{◌≡◌, ◌≤◌, length};
ghost use Rattle.cluster_member.specs.Members.{configuration_of};
ghost use Rattle.ticket_issuing.specs.Issuing.{IsTicketCounter};
ghost use Rattle.turn_rules.specs.Configurations.{default_configuration, first_ticket_counter};
ghost use Rattle.turn_rules.specs.Configurations.{first_ticket_key, gateway_kind, gateway_of};

use aes_gcm::Key;
use cluster_member::Config;
use ha_base::{CounterName, End, GatewayId, Identity, Kind, OctetArray, OctetList, Origin};
use std::marker::Model;

/// The receive window of ESP where nothing configures it.
const DEFAULT_WINDOW: u32 = 64;

/// How the peer and the members that join are configured.
#[derive(Drop)]
pub(crate) struct Settings {
    pub(crate) identity: Identity,
    pub(crate) lifetime: u32,
    pub(crate) window: u32,
    // of no octets where there is none
    pub(crate) ticket_key: OctetList<36>,
}

impl Model for Settings {
    ghost use Rattle.cluster_member.specs.Members.{configuration_of};
    ghost use Rattle.turn_rules.specs.Configurations.{Configuration, first_ticket_key};

    ghost Value = { Configuration };

    ghost view = { λ s. record {
      identity = s.identity;
      lifetime = s.lifetime;
      window = s.window;
      ticket_key = first_ticket_key s.ticket_key;
    } };
}

// the counter of the IVs under the first ticket key
fn ticket_counter() -> CounterName
    ensures { result ≡ first_ticket_counter }
{
    CounterName {
        origin: Origin::TicketKey(1),
        kind: Kind::TicketIv,
        child: 0,
        end: End::Cluster,
    }
}

// the first ticket key, where its octets are those of a key
fn ticket_key(octets: &[u8]) -> Option<Key>
    ensures key { result ≡ first_ticket_key octets.now }
    ensures named { IsTicketCounter result }
{
    Key::new(ticket_counter(), octets)
}

// how REDIRECT names a gateway of this identity (RFC 5685, section 9.2)
fn gateway_kind(identity: u8) -> u8
    ensures { result ≡ gateway_kind identity }
{
    match identity {
        1 => 1,
        5 => 2,
        _ => 3,
    }
}

impl Settings {
    /// How they are configured where nothing configures them: the cluster has the name "cluster".
    pub(crate) fn by_default() -> Settings
        ensures { result ≡ default_configuration }
    {
        Settings {
            identity: Identity {
                kind: 2,
                octets: OctetArray::from_slice(b"cluster"),
            },
            lifetime: 3600,
            window: DEFAULT_WINDOW,
            ticket_key: OctetList::new(),
        }
    }

    /// How they are configured by the event that does so.
    pub(crate) fn of(
        identity: Identity,
        lifetime: u32,
        window: u32,
        key: &OctetList<36>,
    ) -> Settings
        ensures { result ≡ record {
          identity = identity;
          lifetime = lifetime;
          window = window;
          ticket_key = first_ticket_key key.now;
        } }
    {
        Settings {
            identity,
            lifetime,
            window,
            ticket_key: OctetList::from_slice(key.as_slice()),
        }
    }

    /// How a member is configured.
    pub(crate) fn config(&self) -> Config
        ensures config { configuration_of result ≡ self.now }
        ensures named { IsTicketCounter result.ticket_key }
    {
        Config {
            identity: self.identity,
            lifetime: self.lifetime,
            window: self.window,
            ticket_key: ticket_key(self.ticket_key.as_slice()),
        }
    }

    /// The gateway that the peer talks to: the address of the cluster, or its name (RFC 5685,
    /// section 4).
    pub(crate) fn gateway(&self) -> GatewayId
        ensures { result ≡ gateway_of self.now }
    {
        GatewayId {
            kind: gateway_kind(self.identity.kind),
            octets: OctetArray::from_slice(self.identity.octets.as_slice()),
        }
    }
}
