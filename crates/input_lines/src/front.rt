//! The first line of an input.

ghost use Rattle.std.specs.Prelude.{◌≡◌, ◌≤◌, ◌<◌, ◌∷◌, length, take};
ghost use Rattle.input_lines.specs.Lines.{is_passed, lines_of, without_line_feed};

use line_fields::octets_before;

/// The first line of an input, and what stands behind it.
#[derive(Clone, Copy)]
pub struct Front<'a> {
    /// The line without its line feed.
    pub line: &'a [u8],
    /// How many octets the line has with its line feed.
    pub octets: usize,
    /// What stands behind the line.
    pub rest: &'a [u8],
}

/// The first line of octets, which are all of them where they have no line feed.
pub fn front_of(octets: &[u8]) -> Front<'_>
    requires { 0 < length octets.now }
    ensures lines { lines_of octets.now ≡ take result.octets octets.now ∷ lines_of result.rest.now }
    ensures line { without_line_feed (take result.octets octets.now) ≡ result.line.now }
    ensures line_within { length result.line.now ≤ result.octets }
    ensures some { 0 < result.octets }
    ensures within { result.octets ≤ length octets.now }
{
    let len = octets_before(octets, b'\n');
    if len < octets.len() {
        Front {
            line: &octets[..len],
            octets: len + 1,
            rest: &octets[len + 1..],
        }
    } else {
        Front {
            line: octets,
            octets: len,
            rest: &octets[len..],
        }
    }
}

/// Whether the line is passed over: an empty one, or a comment, which begins with `#`.
pub fn is_passed(line: &[u8]) -> bool
    ensures { result ≡ is_passed line.now }
{
    match line {
        [] => true,
        [first, ..] => *first == b'#',
    }
}
