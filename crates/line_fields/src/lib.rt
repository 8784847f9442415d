//! The fields of a line: its words, what each kind of field spells, and the first fault of a line
//! with its place.
#![tactic(auto)]

mod fault;
mod fields;
mod identities;
mod numbers;
mod octet_words;
mod split;
mod words;

pub use fault::{LineFault, LineReason, at};
pub use fields::{
    domain_name, esp_spi, identity, key_size, number, octet, octet_list, octets, short_number, spi,
};
pub use numbers::{number_word, short_word};
pub use octet_words::{fill, fill_hex, is_hex, list_word, size_word};
pub use split::octets_before;
pub use words::Words;
