//! A case: a key and a ticket, and what comes of them.
ghost use Rattle.std.specs.Prelude.{◌≡◌};

use aes_gcm::{Key, MAX_LEN};
use anyhow::{bail, ensure};
use ha_base::Octets;
use spend_once::{CounterName, End, Kind, Lot, Origin};
use std::alloc::Global;
use std::fmt;
use tickets::{BadTicket, Content, LONGEST_TICKET, issue, open_ticket, spell_content};

/// The name of every key here: none is used twice.
const NAME: CounterName = CounterName {
    origin: Origin::TicketKey(1),
    kind: Kind::TicketIv,
    child: 0,
    end: End::Cluster,
};

/// A key with its salt, and a ticket that may have been issued under it.
#[derive(Debug, Drop)]
pub struct Case {
    key: Vec<u8>,
    ticket: Vec<u8>,
}

/// What came of a case.
#[derive(Debug, Drop)]
pub enum Answer {
    /// The number, the plaintext of the content, and the ticket that was issued of them.
    Opened(u64, Octets, Octets),
    /// It did not open.
    Bad(&'static str),
}

fn octets(alloc: Global, word: Option<&str>) -> anyhow::Result<Vec<u8>> {
    match word {
        Some(word) => Ok(hex::decode(alloc, word.as_bytes())?),
        None => bail!("a word is missing"),
    }
}

impl Case {
    /// Reads the two words of a line.
    pub fn parse(alloc: Global, line: &str) -> anyhow::Result<Case> {
        let mut words = line.split(' ');
        let key = octets(alloc, words.next())?;
        let ticket = octets(alloc, words.next())?;
        Ok(Case { key, ticket })
    }

    /// Opens the ticket, and issues it again where it opens.
    pub fn answer(&self, alloc: Global) -> anyhow::Result<Answer> {
        let Some(key) = Key::new(NAME, &self.key) else {
            bail!("a key has 20 or 36 octets with its salt");
        };
        ensure!(self.ticket.len() <= MAX_LEN, "too long a ticket");
        match open_ticket(alloc, &key, &self.ticket) {
            Ok((number, content)) => issued(alloc, &key, number, &content),
            Err(BadTicket::Memory) => bail!("out of memory"),
            Err(bad) => Ok(Answer::Bad(reason(bad))),
        }
    }
}

/// The plaintext of the content, and the ticket of this number.
fn issued(alloc: Global, key: &Key, number: u64, content: &Content) -> anyhow::Result<Answer>
    requires { key.now.name ≡ NAME }
{
    let (Ok(mut plain), Ok(mut ticket)) = (
        Octets::with_room(alloc, LONGEST_TICKET),
        Octets::with_room(alloc, LONGEST_TICKET),
    ) else {
        bail!("out of memory");
    };
    let Some(drawn) = Lot::new(NAME, number, number.saturating_add(1)).draw() else {
        bail!("no number has this value");
    };
    spell_content(content, &mut plain);
    issue(key, drawn, content, &mut ticket);
    Ok(Answer::Opened(number, plain, ticket))
}

/// The word for a reason.
fn reason(bad: BadTicket) -> &'static str {
    match bad {
        BadTicket::Short => "short",
        BadTicket::Version => "version",
        BadTicket::NotOpened => "not-opened",
        BadTicket::Content => "content",
        BadTicket::Memory => "memory",
    }
}

impl fmt::Display for Answer {
    fn fmt<W: fmt::Write>(&self, f: &mut fmt::Formatter<W>) -> fmt::Result {
        match self {
            Answer::Opened(number, plain, ticket) => {
                write!(f, "{number} ")?;
                write_octets(f, plain.as_slice())?;
                write!(f, " ")?;
                write_octets(f, ticket.as_slice())
            }
            Answer::Bad(reason) => write!(f, "{reason}"),
        }
    }
}

/// Writes octets in hexadecimal.
fn write_octets<W: fmt::Write>(f: &mut fmt::Formatter<W>, octets: &[u8]) -> fmt::Result {
    for octet in octets {
        write!(f, "{octet:02x}")?;
    }
    Ok(())
}
