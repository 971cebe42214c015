// The lines of a text, any bytes: what follows the last end of a line is a line if it is not empty.
ghost use Rattle.std.specs.Prelude.{◌≡◌, length, MatchOption};
ghost use Rattle.words.specs.Bytes.{front, after_line};
ghost use Rattle.words.specs.declared.bytes.Class.TheVariants as classes;
ghost use Rattle.std.specs.Iterator.{at_most};

use crate::bytes::{Class, split};

#[derive(Clone, Copy)]
pub struct Lines<'a> {
    rest: &'a [u8],
}

impl<'a> Lines<'a> {
    pub fn new(text: &'a [u8]) -> Lines<'a>
        ensures { result.rest.now ≡ text.now }
    {
        Lines { rest: text }
    }
}

impl<'a> Iterator for Lines<'a> {
    type Item = &'a [u8];

    ghost next_gives = { λ s r t. MatchOption r (length s.rest.now ≡ 0) (λ x. (x.now ≡ front classes.Line s.rest.now) × (t.rest.now ≡ after_line s.rest.now)) };

    ghost remaining = { λ s. at_most (length s.rest.now) };

    fn next(&mut self) -> Option<&'a [u8]> {
        if self.rest.is_empty() {
            return None;
        }
        let (line, rest) = split(Class::Line, self.rest);
        self.rest = rest.get(1..).unwrap_or(rest);
        Some(line)
    }
}
