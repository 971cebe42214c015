// Why a call is refused: each case by its name, with the number and the place that a caller is told.
#![tactic(auto)]

ghost use Rattle.std.specs.Prelude.{◌≡◌};
ghost use Rattle.refusals.specs.Numbers.{number_of, place_of, parameter_place, base_place};

use std::fmt;

// The two numbers that make a group: its order q and the modulus p that it counts by.
#[derive(Clone, Copy, PartialEq, Eq, Debug)]
pub enum Parameter {
    Order,
    Modulus,
}

// The two bases of a group, g and h.
#[derive(Clone, Copy, PartialEq, Eq, Debug)]
pub enum Base {
    First,
    Second,
}

#[derive(Clone, Copy, PartialEq, Eq, Debug)]
pub enum Refusal {
    // not from 11 to 2,147,483,647
    OutOfRange(Parameter),
    // not among the numbers that groups are made of
    NotListed(Parameter),
    // scalars count modulo a prime
    NotPrime,
    // q does not divide p - 1 (residues) or p + 1 (circle), or the circle's p does not leave 3 when divided by 4
    NoSuchGroup,
    // no element, or the neutral one
    UnfitBase(Base),
    // the sides of a join count by different orders
    OrdersDiffer,
    // the sides of a join have more than 255 kinds together
    TooManyKinds,
    // a rule's text has no byte, or more than 240
    TextLength,
    // the grammar of rules allows no such byte here, or the text ends too early
    Unexpected(u8),
    // a key's number is not from 1 to 255, or begins with a zero
    KeyNumber(u8),
    // a gate's digit is not from 2 to 7
    GateDigit(u8),
    // an item stands nine deep
    TooDeep(u8),
    // the seventeenth key
    TooManyKeys(u8),
    // a gate's ninth item
    TooManyItems(u8),
    // a gate closes after one item, or with a digit that is not below the number of its items
    TooFewItems(u8),
    // a key's number stands in no line of the ring
    NotInRing(u8),
    // a ring has 1 to 16 lines of 18 bytes
    RingLength,
    // a line's number is not above the number before it
    NotRising(u8),
    // a line's kind is unknown, or its image is no image of that kind
    NoImage(u8),
    // an output is not as long as what is to be written
    OutputLength,
    // a list of keys has another length than the rule has leaves
    KeyCount(u32),
    // no key of the leaf's width
    NoKey(u8),
    // a key's image is not its leaf's statement
    Unopened(u8),
    // the keys do not satisfy the rule
    Unsatisfied,
    // a tape has another length than the shares of the rule together
    TapeLength(u32),
    // a tape's word is not below q
    NoScalar(u8),
    // a challenge is not below q
    ChallengeRange,
    // a chit does not name the held commitment
    NotHeld,
    // 65,535 commitments were made
    CountFull,
    // a transcript is not N + 6L words
    TranscriptLength,
    // a word of a transcript is no scalar, no image's first or no part of a key
    UnfitWord(u8),
    // a gate does not balance
    Unbalanced(u8),
    // a leaf's equation does not hold
    EquationFails(u8),
    // a slot has a transcript already
    SlotFilled(u32),
    // slots are numbered from 1 to 8
    NoSlot(u32),
    // a slot has no transcript
    SlotEmpty(u32),
    // two transcripts have different commitments at a leaf
    CommitmentsDiffer(u8),
    // two transcripts have the same challenge
    ChallengesEqual,
}

impl Parameter {
    pub fn place(self) -> u32
        ensures { result ≡ parameter_place self }
    {
        match self {
            Parameter::Order => 1,
            Parameter::Modulus => 2,
        }
    }
}

impl Base {
    pub fn place(self) -> u32
        ensures { result ≡ base_place self }
    {
        match self {
            Base::First => 3,
            Base::Second => 4,
        }
    }
}

impl Refusal {
    pub fn number(self) -> u8
        ensures { result ≡ number_of self }
    {
        match self {
            Refusal::OutOfRange(_) => 1,
            Refusal::NotListed(_) | Refusal::NotPrime => 2,
            Refusal::NoSuchGroup => 3,
            Refusal::UnfitBase(_) => 4,
            Refusal::OrdersDiffer | Refusal::TooManyKinds => 5,
            Refusal::TextLength => 6,
            Refusal::Unexpected(_) => 7,
            Refusal::KeyNumber(_) | Refusal::GateDigit(_) => 8,
            Refusal::TooDeep(_)
            | Refusal::TooManyKeys(_)
            | Refusal::TooManyItems(_)
            | Refusal::TooFewItems(_) => 9,
            Refusal::NotInRing(_) => 10,
            Refusal::RingLength => 11,
            Refusal::NotRising(_) => 12,
            Refusal::NoImage(_) => 13,
            Refusal::KeyCount(_) | Refusal::NoKey(_) => 14,
            Refusal::Unopened(_) => 15,
            Refusal::Unsatisfied => 16,
            Refusal::TapeLength(_) | Refusal::NoScalar(_) => 17,
            Refusal::ChallengeRange => 18,
            Refusal::NotHeld => 19,
            Refusal::CountFull => 20,
            Refusal::OutputLength => 21,
            Refusal::TranscriptLength => 22,
            Refusal::UnfitWord(_) => 23,
            Refusal::Unbalanced(_) => 24,
            Refusal::EquationFails(_) => 25,
            Refusal::SlotFilled(_) => 26,
            Refusal::NoSlot(_) | Refusal::SlotEmpty(_) => 27,
            Refusal::CommitmentsDiffer(_) => 28,
            Refusal::ChallengesEqual => 29,
        }
    }

    pub fn place(self) -> u32
        ensures { result ≡ place_of self }
    {
        match self {
            Refusal::OutOfRange(parameter) | Refusal::NotListed(parameter) => parameter.place(),
            Refusal::UnfitBase(base) => base.place(),
            Refusal::NotPrime | Refusal::OrdersDiffer => 1,
            Refusal::NoSuchGroup | Refusal::TooManyKinds => 2,
            Refusal::Unexpected(place)
            | Refusal::KeyNumber(place)
            | Refusal::GateDigit(place)
            | Refusal::TooDeep(place)
            | Refusal::TooManyKeys(place)
            | Refusal::TooManyItems(place)
            | Refusal::TooFewItems(place)
            | Refusal::NotInRing(place)
            | Refusal::NotRising(place)
            | Refusal::NoImage(place)
            | Refusal::NoKey(place)
            | Refusal::Unopened(place)
            | Refusal::NoScalar(place)
            | Refusal::UnfitWord(place)
            | Refusal::Unbalanced(place)
            | Refusal::EquationFails(place)
            | Refusal::CommitmentsDiffer(place) => place.into(),
            Refusal::KeyCount(number)
            | Refusal::TapeLength(number)
            | Refusal::SlotFilled(number)
            | Refusal::NoSlot(number)
            | Refusal::SlotEmpty(number) => number,
            Refusal::TextLength
            | Refusal::RingLength
            | Refusal::OutputLength
            | Refusal::Unsatisfied
            | Refusal::ChallengeRange
            | Refusal::NotHeld
            | Refusal::CountFull
            | Refusal::TranscriptLength
            | Refusal::ChallengesEqual => 0,
        }
    }

    // What the refusal means, in words.
    pub fn meaning(self) -> &'static str {
        match self {
            Refusal::OutOfRange(Parameter::Order) => "the order q is not from 11 to 2147483647",
            Refusal::OutOfRange(Parameter::Modulus) => "the modulus p is not from 11 to 2147483647",
            Refusal::NotListed(Parameter::Order) => "the order q is not one of 11, 13, 331, 166667",
            Refusal::NotListed(Parameter::Modulus) =>
                "the modulus p is not one of 23, 43, 53, 103, 2647, 1000003, 2000003, 2147483647",
            Refusal::NotPrime => "the order q is no prime",
            Refusal::NoSuchGroup => "no group of order q has this modulus p",
            Refusal::UnfitBase(Base::First) =>
                "the base g is no element of the group, or is neutral",
            Refusal::UnfitBase(Base::Second) =>
                "the base h is no element of the group, or is neutral",
            Refusal::OrdersDiffer => "the two sets of a join differ in their order q",
            Refusal::TooManyKinds => "the two sets of a join have more than 255 kinds together",
            Refusal::TextLength => "the rule's text has no byte, or more than 240",
            Refusal::Unexpected(_) => "a rule does not go on with this byte, or ends too early",
            Refusal::KeyNumber(_) => "a key's number is from 1 to 255, without leading zeros",
            Refusal::GateDigit(_) => "a gate's digit is from 2 to 7",
            Refusal::TooDeep(_) => "an item stands more than 8 deep",
            Refusal::TooManyKeys(_) => "a rule has at most 16 keys",
            Refusal::TooManyItems(_) => "a gate has at most 8 items",
            Refusal::TooFewItems(_) => "a gate has at least 2 items, and more than its digit",
            Refusal::NotInRing(_) => "the key's number stands in no line of the ring",
            Refusal::RingLength => "a ring has 1 to 16 lines of 18 bytes",
            Refusal::NotRising(_) => "the line's number is not above the one before it",
            Refusal::NoImage(_) =>
                "the line's kind is unknown, or its four words are no image of that kind",
            Refusal::OutputLength => "the output is not as long as what is to be written",
            Refusal::KeyCount(_) => "a list of keys has one place for each leaf",
            Refusal::NoKey(_) =>
                "the leaf's key has not its kind's width, or is no pair of scalars",
            Refusal::Unopened(_) => "the key does not open its leaf",
            Refusal::Unsatisfied => "the keys do not satisfy the rule",
            Refusal::TapeLength(_) => "the tape is not as long as the rule's shares together",
            Refusal::NoScalar(_) => "the tape's word is no scalar",
            Refusal::ChallengeRange => "the challenge is no scalar",
            Refusal::NotHeld => "the chit does not name the held commitment",
            Refusal::CountFull => "the bench has made 65535 commitments",
            Refusal::TranscriptLength => "the transcript is not as long as the rule asks",
            Refusal::UnfitWord(_) => "the transcript's word does not fit",
            Refusal::Unbalanced(_) => "the gate does not balance",
            Refusal::EquationFails(_) => "the leaf's equation does not hold",
            Refusal::SlotFilled(_) => "the slot has a transcript already",
            Refusal::NoSlot(_) => "slots are numbered from 1 to 8",
            Refusal::SlotEmpty(_) => "the slot has no transcript",
            Refusal::CommitmentsDiffer(_) => "the transcripts' commitments differ",
            Refusal::ChallengesEqual => "the transcripts' challenges are equal",
        }
    }
}

// `refused`, the number, the place, and what it means.
impl fmt::Display for Refusal {
    fn fmt<W: fmt::Write>(&self, f: &mut fmt::Formatter<W>) -> fmt::Result {
        let number = self.number();
        let place = self.place();
        let meaning = self.meaning();
        write!(f, "refused {number} {place} {meaning}")
    }
}
