// The lines of a ring: a key number with its kind and its statement.
ghost use Rattle.std.specs.Prelude.{◌≡◌, ◌+◌, ◌≤◌};
ghost use Rattle.rings.specs.Rings.{word_at as spelt};
ghost use Rattle.rings.specs.Pairings.{line_of};

use bounded::Row;
use kinds::Image;

pub(crate) const LINE_BYTES: usize = 18;

pub(crate) const MOST_LINES: usize = 16;

// kept: a kind by its number: which kinds there are is known to the set alone, a stranger's too
#[derive(Clone, Copy, Default, PartialEq, Eq)]
pub struct Line {
    pub number: u8,
    pub kind: u8,
    pub image: Image,
}

// The lines of a ring, at most 16.
pub type Lines = Row<Line, MOST_LINES>;

fn word_at(bytes: &[u8; LINE_BYTES], at: usize) -> u32
    requires { at + 4 ≤ LINE_BYTES }
    ensures { result ≡ spelt bytes.now at }
{
    u32::from_be_bytes([bytes[at], bytes[at + 1], bytes[at + 2], bytes[at + 3]])
}

impl From<&[u8; LINE_BYTES]> for Line {
    ghost use Rattle.std.specs.Prelude.{◌≡◌};
    ghost use Rattle.rings.specs.Rings.{line_at};

    ghost from_gives = { λ bytes line. line ≡ line_at bytes.now 0 };

    fn from(bytes: &[u8; LINE_BYTES]) -> Line {
        Line {
            number: bytes[0],
            kind: bytes[1],
            image: Image(
                (word_at(bytes, 2), word_at(bytes, 6)),
                (word_at(bytes, 10), word_at(bytes, 14)),
            ),
        }
    }
}

// The line with this number, or none.
pub fn find_line(lines: &[Line], number: u8) -> Option<Line>
    ensures { result ≡ line_of lines.now number }
{
    lines.iter().find(|line| line.number == number).copied()
}
