use ha_base::Octets;
use std::marker::Model;

/// A message that is kept under its Message ID.
#[derive(Drop)]
pub(crate) struct Message {
    pub(crate) id: u32,
    pub(crate) octets: Octets,
}

impl Model for Message {
    ghost use Rattle.ike_window.specs.Kept.{KeptMessage};

    ghost Value = { KeptMessage };

    ghost view = { λ message. record { id = message.id; octets = message.octets.octets } };
}
