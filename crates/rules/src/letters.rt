// The smallest parts of a rule's text: letters, numbers, and the heads of gates.
// kept: casts by `as`: nothing is lost, as the check proves; behind a `From` a number is a new one to the proof, and a `TryFrom` has a refusal that never comes
ghost use Rattle.std.specs.Prelude.{◌≡◌, ◌+◌, ◌≤◌, ◌&&◌, nat_le, false, length, MatchOption, MatchResult, slice_get, slice_index};
ghost use Rattle.rules.specs.ReaderSteps.{Numbered, Unnumbered, Passed, NotPassed, Headed, Unheaded, Begins};

use crate::head::Head;
use refusals::Refusal;

const MOST_NUMBER: u32 = 255;

// The letters of a text, read from left to right up to a place.
// kept: each function that goes on says that the text stays the same, which no type of a field can say
#[derive(Drop)]
pub struct Letters<'a> {
    pub(crate) text: &'a [u8],
    pub(crate) at: u8,
    ghost short: { length text.now ≤ 240 },
}

impl<'a> Letters<'a> {
    // The letter that comes next, or none at the end.
    pub(crate) fn peek(&self) -> Option<char>
        ensures { result ≡ slice_get self.now.text.now self.now.at }
    {
        let byte = self.text.get(self.at as usize)?;
        Some(*byte as char)
    }

    // The digit from `least` to `most` that comes next, or none where no such digit does.
    fn digit(&self, least: char, most: char) -> Option<u8>
        requires { (48 ≤ least) × (most ≤ 57) }
        ensures { let next = slice_index self.now.text.now self.now.at in MatchOption result ((nat_le least next && nat_le next most) ≡ false) (λ d. (least ≤ next) × ((next ≤ most) × (next ≡ 48 + d))) }
    {
        // kept: tried `(least..=most).contains(&letter)`, the proof did not close
        match self.peek() {
            Some(letter) if least <= letter && letter <= most => Some(letter as u8 - b'0'),
            _ => None,
        }
    }

    // The number that stands here in digits.
    // kept: digit by digit: the library's `parse` takes a sign and leading zeros, and tells no place
    pub(crate) fn number(&mut self) -> Result<u8, Refusal>
        ensures same { self.new.text ≡ self.old.text }
        ensures numbered { MatchResult result (λ n. Numbered self.old.text.now self.old.at n self.new.at) (λ x. Unnumbered self.old.text.now self.old.at x) }
    {
        let start = self.at;
        let mut value = match self.digit('0', '9') {
            Some(0) => return Err(Refusal::KeyNumber(start)),
            Some(digit) => digit as u32,
            None => return Err(Refusal::Unexpected(start)),
        };
        self.at += 1;
        while let Some(digit) = self.digit('0', '9') {
            value = value * 10 + digit as u32;
            if value > MOST_NUMBER {
                return Err(Refusal::KeyNumber(start));
            }
            self.at += 1;
        }
        Ok(value as u8)
    }

    // Past these letters, which must come next.
    fn pass(&mut self, letters: &[u8]) -> Result<(), Refusal>
        ensures same { self.new.text ≡ self.old.text }
        ensures passed { MatchResult result (λ _. Passed self.old.text.now self.old.at letters.now self.new.at) (λ x. NotPassed self.old.text.now self.old.at letters.now x) }
    {
        for letter in letters {
            match self.peek() {
                Some(next) if next == *letter as char => self.at += 1,
                _ => return Err(Refusal::Unexpected(self.at)),
            }
        }
        Ok(())
    }

    // A gate's head with its bracket.
    pub(crate) fn heading(&mut self) -> Result<Head, Refusal>
        requires { Begins (slice_index self.old.text.now self.old.at) }
        ensures same { self.new.text ≡ self.old.text }
        ensures headed { MatchResult result (λ h. Headed self.old.text.now self.old.at h self.new.at) (λ x. Unheaded self.old.text.now self.old.at x) }
    {
        match self.peek() {
            Some('a') => {
                self.at += 1;
                match self.peek() {
                    Some('l') => {
                        self.at += 1;
                        self.pass(b"l(")?;
                        Ok(Head::All)
                    }
                    Some('n') => {
                        self.at += 1;
                        self.pass(b"y(")?;
                        Ok(Head::Any)
                    }
                    _ => Err(Refusal::Unexpected(self.at)),
                }
            }
            _ => match self.digit('2', '7') {
                Some(wanted) => {
                    self.at += 1;
                    self.pass(b"of(")?;
                    Ok(Head::Of(wanted))
                }
                None => Err(Refusal::GateDigit(self.at)),
            },
        }
    }
}
