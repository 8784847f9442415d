ghost use Rattle.std.specs.Prelude.{◌≡◌, ◌+◌, ◌<◌, ◌≤◌, ◌∷◌, ◌++◌, length, slice_set};
ghost use Rattle.ike_values.specs.Spelling.{two};

use ha_base::{DATAGRAM_OCTETS, Octets};

/// Begins a payload of this type in a message in the making, whose last octet is a pad length 0.
/// The body of so many octets comes next, and then a pad length.
///
/// The last octet becomes the payload's next payload field. `link` is the place of the field that
/// is to tell the type of the payload, and then the place of the payload's own.
pub fn begin_payload(message: &mut Octets, link: &mut usize, kind: u8, body: usize)
    requires link { link.old < length message.old.octets }
    requires small { body ≤ DATAGRAM_OCTETS }
    requires room { 3 ≤ message.old.spare }
    ensures octets { message.new.octets
        ≡ slice_set message.old.octets link.old kind ++ (0 ∷ two (4 + body)) }
    ensures link { link.new + 1 ≡ length message.old.octets }
    ensures spare { message.old.spare ≤ message.new.spare + 3 }
{
    message.set(*link, kind);
    *link = message.as_slice().len() - 1;
    let length = 4 + body;
    message
        .extend(&[0, (length / 256) as u8, (length % 256) as u8])
        .unwrap();
}
