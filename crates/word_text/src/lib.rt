//! Words of a line as text, appended to octets. Each stands after a space, but for those that are
//! called bare. An error is want of memory, and the octets may then end in a part of the word.
#![tactic(auto)]

mod ends;
mod numbers;
mod octet_words;
mod words;

pub use ends::write_end;
pub use numbers::{put_bare_number, put_number};
pub use octet_words::{
    put_bare_octets, put_bare_spi, put_digits, put_esp_spi, put_octets, put_spi,
};
pub use words::put_word;
