//! The words of an event.

ghost use Rattle.std.specs.Prelude.{◌≡◌, [], ◌∷◌, ◌++◌, OnOk};
ghost use Rattle.line_fields.specs.Identities.{identity_text};
ghost use Rattle.line_fields.specs.Octets.{octets_text, spi_text};
ghost use Rattle.events.specs.Events.{Import, association, plain};
ghost use Rattle.events.specs.FieldWords.{child_key_words, five_words, medium_word, party_text, sa_key_words, which_text};
ghost use Rattle.events.specs.FilledRows.{event_words};
ghost use Rattle.line_fields.specs.Fields.{size_text};
ghost use Rattle.line_fields.specs.Writing.{with_words};

use events::{Event, Medium, Party, Which};
use ha_base::{ChildKeys, Identity, KeySize, Memory, Octets, SaKeys, identity_forms, word_by};
use keeper_book::{Five, Record};
use std::alloc::Global;
use word_text::{put_bare_octets, put_esp_spi, put_number, put_octets, put_spi, put_word};

// A word that begins with a prefix and has octets behind it.
#[tactic(auto, using(crate::proofs::WritingLaws::prefixed_word))]
fn put_prefixed(alloc: Global, out: &mut Octets, prefix: &[u8], octets: &[u8]) -> Result<(), Memory>
    ensures { OnOk result (out.new.octets
        ≡ out.old.octets ++ (32 ∷ (prefix.now ++ octets_text octets.now))) }
{
    put_word(out, prefix)?;
    put_bare_octets(alloc, out, octets)
}

fn put_identity(alloc: Global, out: &mut Octets, identity: &Identity) -> Result<(), Memory>
    ensures { OnOk result (out.new.octets ≡ out.old.octets ++ (32 ∷ identity_text identity.now)) }
{
    let prefix = word_by(&identity_forms(), identity.kind);
    put_prefixed(alloc, out, prefix, identity.octets.as_slice())
}

fn size_text(size: KeySize) -> &'static [u8]
    ensures { result.now ≡ size_text size }
{
    match size {
        KeySize::Bits128 => b"128",
        KeySize::Bits256 => b"256",
    }
}

fn put_sa_keys(alloc: Global, out: &mut Octets, keys: &SaKeys) -> Result<(), Memory>
    ensures { OnOk result (out.new.octets ≡ with_words out.old.octets (sa_key_words keys.now)) }
{
    put_octets(alloc, out, &keys.sk_d)?;
    put_octets(alloc, out, keys.sk_ei.as_slice())?;
    put_octets(alloc, out, keys.sk_er.as_slice())?;
    put_octets(alloc, out, &keys.sk_pi)?;
    put_octets(alloc, out, &keys.sk_pr)
}

fn put_child_keys(alloc: Global, out: &mut Octets, keys: &ChildKeys) -> Result<(), Memory>
    ensures { OnOk result (out.new.octets ≡ with_words out.old.octets (child_key_words keys.now)) }
{
    put_octets(alloc, out, keys.to_cluster.as_slice())?;
    put_octets(alloc, out, keys.to_peer.as_slice())
}

pub(crate) fn put_five(alloc: Global, out: &mut Octets, five: &Five) -> Result<(), Memory>
    ensures { OnOk result (out.new.octets ≡ with_words out.old.octets (five_words five.now)) }
{
    put_number(alloc, out, five.esp_out)?;
    put_number(alloc, out, five.esp_in)?;
    put_number(alloc, out, five.iv)?;
    put_number(alloc, out, five.ask)?;
    put_number(alloc, out, five.answer)
}

fn put_import(alloc: Global, out: &mut Octets, sa: &Record) -> Result<(), Memory>
    ensures { OnOk result (out.new.octets
        ≡ with_words out.old.octets (event_words (Import (association sa.now)))) }
{
    put_word(out, b"import")?;
    put_spi(alloc, out, sa.spii)?;
    put_spi(alloc, out, sa.spir)?;
    put_word(out, size_text(sa.size))?;
    put_identity(alloc, out, &sa.identity)?;
    put_sa_keys(alloc, out, &sa.keys)?;
    put_esp_spi(alloc, out, sa.spi_in)?;
    put_esp_spi(alloc, out, sa.spi_out)?;
    put_child_keys(alloc, out, &sa.child)?;
    put_five(alloc, out, &sa.starts)
}

pub(crate) fn medium_word(medium: Medium) -> &'static [u8]
    ensures { result.now ≡ medium_word medium }
{
    match medium {
        Medium::Ike => b"ike",
        Medium::Esp => b"esp",
    }
}

fn put_party(alloc: Global, out: &mut Octets, party: Party) -> Result<(), Memory>
    ensures { OnOk result (out.new.octets ≡ out.old.octets ++ (32 ∷ party_text party)) }
{
    match party {
        Party::Peer => put_word(out, b"peer"),
        Party::Member(number) => put_number(alloc, out, number),
    }
}

fn put_which(alloc: Global, out: &mut Octets, which: Which) -> Result<(), Memory>
    ensures { OnOk result (out.new.octets ≡ out.old.octets ++ (32 ∷ which_text which)) }
{
    match which {
        Which::Number(number) => put_number(alloc, out, u64::from(number)),
        Which::Last => put_word(out, b"last"),
    }
}

// A word, an end and an association.
fn put_sender(
    alloc: Global,
    out: &mut Octets,
    word: &[u8],
    from: Party,
    spir: u64,
) -> Result<(), Memory>
    ensures { OnOk result (out.new.octets
        ≡ with_words out.old.octets (word.now ∷ party_text from ∷ spi_text spir ∷ [])) }
{
    put_word(out, word)?;
    put_party(alloc, out, from)?;
    put_spi(alloc, out, spir)
}

pub(crate) fn put_event(alloc: Global, out: &mut Octets, event: &Event) -> Result<(), Memory>
    ensures { OnOk result (out.new.octets
        ≡ with_words out.old.octets (event_words (plain event.now))) }
{
    match event {
        Event::Cluster {
            identity,
            lifetime,
            window,
            ticket_key,
        } => {
            put_word(out, b"cluster")?;
            put_identity(alloc, out, identity)?;
            put_number(alloc, out, u64::from(*lifetime))?;
            put_number(alloc, out, u64::from(*window))?;
            put_octets(alloc, out, ticket_key.as_slice())
        }
        Event::Import { sa } => put_import(alloc, out, sa),
        Event::Join { fresh } => {
            put_word(out, b"join")?;
            put_octets(alloc, out, fresh)
        }
        Event::Own { member, spir } => {
            put_word(out, b"own")?;
            put_number(alloc, out, *member)?;
            put_spi(alloc, out, *spir)
        }
        Event::Draw { member, spir } => {
            put_word(out, b"draw")?;
            put_number(alloc, out, *member)?;
            put_spi(alloc, out, *spir)
        }
        Event::Crash { member } => {
            put_word(out, b"crash")?;
            put_number(alloc, out, *member)
        }
        Event::Send {
            from,
            spir,
            payload,
        } => {
            put_sender(alloc, out, b"send", *from, *spir)?;
            put_octets(alloc, out, payload.as_slice())
        }
        Event::Ask {
            from,
            spir,
            request,
        } => {
            put_sender(alloc, out, b"ask", *from, *spir)?;
            put_octets(alloc, out, request.as_slice())
        }
        Event::Again { from, spir, id } => {
            put_sender(alloc, out, b"again", *from, *spir)?;
            put_number(alloc, out, u64::from(*id))
        }
        Event::Sync { member, spir } => {
            put_word(out, b"sync")?;
            put_number(alloc, out, *member)?;
            put_spi(alloc, out, *spir)
        }
        Event::Ticket { spir } => {
            put_word(out, b"ticket")?;
            put_spi(alloc, out, *spir)
        }
        Event::Forget { spir } => {
            put_word(out, b"forget")?;
            put_spi(alloc, out, *spir)
        }
        Event::Deliver { which, to } => {
            put_word(out, b"deliver")?;
            put_which(alloc, out, *which)?;
            put_party(alloc, out, *to)
        }
        Event::Alter {
            which,
            to,
            place,
            octet,
        } => {
            put_word(out, b"alter")?;
            put_which(alloc, out, *which)?;
            put_party(alloc, out, *to)?;
            put_number(alloc, out, u64::from(*place))?;
            put_octets(alloc, out, &[*octet])
        }
        Event::Cut { which, to, keep } => {
            put_word(out, b"cut")?;
            put_which(alloc, out, *which)?;
            put_party(alloc, out, *to)?;
            put_number(alloc, out, u64::from(*keep))
        }
        Event::Inject { to, medium, octets } => {
            put_word(out, b"inject")?;
            put_party(alloc, out, *to)?;
            put_word(out, medium_word(*medium))?;
            put_octets(alloc, out, octets.as_slice())
        }
    }
}
