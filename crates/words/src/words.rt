// The words of a line, read one after another from its front.
ghost use Rattle.std.specs.Prelude.{◌≡◌};
ghost use Rattle.words.specs.Bytes.{front, past};
ghost use Rattle.std.specs.Option.{option_map};
ghost use Rattle.std.specs.Fn.{FnOnceReturnsAt};
ghost use Rattle.words.specs.Words.{fault, word_at, after_word, following, ReadsAs, number_at, byte_at, text_of, end_at, numbers_at};
ghost use Rattle.words.specs.declared.bytes.Class.TheVariants.{Code};

use crate::bytes::{Class, byte, number, split, trimmed};
use crate::fault::{Expected, Fault};

#[derive(Clone, Copy)]
pub struct Words<'a> {
    rest: &'a [u8],
    place: u32,
}

impl<'a> Words<'a> {
    // The words of a line before its comment.
    pub fn new(line: &'a [u8]) -> Words<'a>
        ensures { (result.rest.now ≡ front Code line.now) × (result.place ≡ 1) }
    {
        let (code, _comment) = split(Class::Code, line);
        Words {
            rest: code,
            place: 1,
        }
    }

    // The place of the next word, counted from 1.
    pub fn place(&self) -> u32
        ensures { result ≡ self.now.place }
    {
        self.place
    }

    // The next word; none past the last.
    // kept: two clauses on what is left, here and at each reader below: callers cite the one or the other
    pub fn word(&mut self) -> Option<&'a [u8]>
        ensures value { option_map (λ w. w.now) result ≡ word_at self.old.rest.now }
        ensures after { self.new.rest.now ≡ after_word self.old.rest.now }
        ensures counted { self.new.place ≡ following self.old.place }
    {
        let (_blanks, rest) = split(Class::Blank, self.rest);
        let (word, rest) = split(Class::Word, rest);
        self.rest = rest;
        self.place = self.place.saturating_add(1);
        (!word.is_empty()).then_some(word)
    }

    // The next word as what a function reads it as.
    pub fn read<T, F: FnOnce(&[u8]) -> Option<T>>(
        &mut self,
        expected: Expected,
        read: F,
    ) -> Result<T, Fault>
        requires { F.IsAlwaysCallable read }
        ensures value { ReadsAs (FnOnceReturnsAt F.FnOnce read) (word_at self.old.rest.now) (fault self.old.place expected) result }
        ensures after { self.new.rest.now ≡ after_word self.old.rest.now }
        ensures counted { self.new.place ≡ following self.old.place }
    {
        let place = self.place;
        self.word().and_then(read).ok_or(Fault { place, expected })
    }

    // The next word as a number.
    pub fn number(&mut self) -> Result<u32, Fault>
        ensures value { result ≡ number_at self.old.place self.old.rest.now }
        ensures after { self.new.rest.now ≡ after_word self.old.rest.now }
        ensures counted { self.new.place ≡ following self.old.place }
    {
        self.read(Expected::Number, number)
    }

    // The next word as a number below 256.
    pub fn byte(&mut self) -> Result<u8, Fault>
        ensures value { result ≡ byte_at self.old.place self.old.rest.now }
        ensures after { self.new.rest.now ≡ after_word self.old.rest.now }
        ensures counted { self.new.place ≡ following self.old.place }
    {
        self.read(Expected::Byte, byte)
    }

    // What is left of the line, without the blanks before and after it.
    pub fn text(&self) -> &'a [u8]
        ensures { result.now ≡ text_of self.now.rest.now }
    {
        let (_blanks, rest) = split(Class::Blank, self.rest);
        trimmed(rest)
    }

    // That there is no word left.
    pub fn end(&self) -> Result<(), Fault>
        ensures { result ≡ end_at self.now.place self.now.rest.now }
    {
        let (_blanks, rest) = split(Class::Blank, self.rest);
        if rest.is_empty() {
            Ok(())
        } else {
            Err(Fault {
                place: self.place,
                expected: Expected::End,
            })
        }
    }

    // The words that are left, as so many numbers.
    pub fn numbers<const N: usize>(&mut self) -> Result<[u32; N], Fault>
        ensures { result ≡ numbers_at N self.old.place self.old.rest.now }
    {
        let mut all = [0; N];
        for number in &mut all {
            *number = self.number()?;
        }
        self.end()?;
        Ok(all)
    }
}
