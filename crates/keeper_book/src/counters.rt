ghost use Rattle.std.specs.Prelude.{◌≡◌};
ghost use Rattle.keeper_book.specs.Counters.{counter_named, counter_of_kind, extended_end, five_at, with_five};

use ha_base::{IV_END, Kind, MESSAGE_ID_END, SEQUENCE_END};

/// The counters that the book keeps of each association.
#[derive(Clone, Copy, Debug, PartialEq, Eq)]
pub enum Counter {
    /// ESP numbers that the cluster sends.
    EspOut,
    /// ESP numbers that the cluster receives.
    EspIn,
    /// IVs of the cluster's IKE messages.
    Iv,
    /// Message IDs of the cluster's own requests.
    Ask,
    /// Message IDs of the requests that the cluster answers.
    Answer,
}

/// A number for each counter of an association.
#[derive(Clone, Copy, Debug, PartialEq, Eq)]
pub struct Five {
    pub esp_out: u64,
    pub esp_in: u64,
    pub iv: u64,
    pub ask: u64,
    pub answer: u64,
}

impl Counter {
    /// The counter of this kind and child, where it is one of an association: the child is 1 at the
    /// kinds of ESP, and 0 at the others.
    pub fn named(kind: Kind, child: u32) -> Option<Counter>
        ensures { result ≡ counter_named kind child }
    {
        match (kind, child) {
            (Kind::EspOut, 1) => Some(Counter::EspOut),
            (Kind::EspIn, 1) => Some(Counter::EspIn),
            (Kind::Iv, 0) => Some(Counter::Iv),
            (Kind::Ask, 0) => Some(Counter::Ask),
            (Kind::Answer, 0) => Some(Counter::Answer),
            _ => None,
        }
    }

    /// The counter of this kind, where it is one of an association.
    pub fn of_kind(kind: Kind) -> Option<Counter>
        ensures { result ≡ counter_of_kind kind }
    {
        match kind {
            Kind::EspOut => Some(Counter::EspOut),
            Kind::EspIn => Some(Counter::EspIn),
            Kind::Iv => Some(Counter::Iv),
            Kind::Ask => Some(Counter::Ask),
            Kind::Answer => Some(Counter::Answer),
            Kind::TicketIv | Kind::Nonce => None,
        }
    }

    /// The end of the counter, where sequence numbers are extended: no number of it reaches this
    /// one.
    pub fn extended_end(self) -> u64
        ensures { result ≡ extended_end self }
    {
        match self {
            Counter::EspOut | Counter::EspIn => SEQUENCE_END,
            Counter::Iv => IV_END,
            Counter::Ask | Counter::Answer => MESSAGE_ID_END,
        }
    }
}

impl Five {
    /// The number of a counter.
    pub fn at(&self, counter: Counter) -> u64
        ensures { result ≡ five_at self.now counter }
    {
        match counter {
            Counter::EspOut => self.esp_out,
            Counter::EspIn => self.esp_in,
            Counter::Iv => self.iv,
            Counter::Ask => self.ask,
            Counter::Answer => self.answer,
        }
    }

    /// Sets the number of a counter.
    pub fn set(&mut self, counter: Counter, number: u64)
        ensures { self.new ≡ with_five counter number self.old }
    {
        match counter {
            Counter::EspOut => self.esp_out = number,
            Counter::EspIn => self.esp_in = number,
            Counter::Iv => self.iv = number,
            Counter::Ask => self.ask = number,
            Counter::Answer => self.answer = number,
        }
    }
}
