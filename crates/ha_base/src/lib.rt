//! The plain types that every layer shares, and the outside of a run: where octets come from and go
//! to, and who executes a request.
#![tactic(auto)]

mod big_endian;
mod counter_names;
mod esp_outcomes;
mod id_forms;
mod identities;
mod key_material;
mod limits;
mod memory_streams;
mod octet_store;
mod outside;
mod services;
mod short_lists;
mod std_streams;
mod streams;

pub use big_endian::{read_u32, read_u64};
pub use counter_names::{CounterName, Derivation, End, Kind, Origin};
pub use esp_outcomes::{EspDrop, EspOpened};
pub use id_forms::{IdForm, fqdn, gateway_forms, has_size, identity_forms, word_by};
pub use identities::{GatewayId, Identity};
pub use key_material::{ChildKeys, KeySize, SaKeys};
pub use limits::{
    ALLOCATION_END, DATAGRAM_OCTETS, INPUT_OCTETS, IV_END, LEAST_ESP_SPI, LEAST_SPI, LINE_OCTETS,
    MAX_DATAGRAMS, MESSAGE_ID_END, NUMBER_END, PAYLOAD_OCTETS, PIECE_OCTETS, SEQUENCE_END,
};
pub use memory_streams::{MemorySink, MemorySource};
pub use octet_store::Octets;
pub use outside::{Failed, Memory, Moment};
pub use services::{LONGEST_REQUEST, MOST_REQUESTS, Reply, Service, TallyService, are_fresh};
pub use short_lists::{NumberList, OctetArray, OctetList};
pub use std_streams::{StdSink, StdSource};
pub use streams::{Sink, Source, write_all};
