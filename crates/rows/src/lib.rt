// The lists that a bench holds: images, keys and tapes of a rule, words of a transcript.
#![tactic(auto)]

ghost use Rattle.std.specs.Prelude.{◌≡◌, [], replicate, Some};
ghost use Rattle.bounded.specs.Rows.{items, places};
ghost use Rattle.fields.specs.Scalars.{scalar};

use bounded::Row;
use fields::Scalar;
use kinds::{Image, Key};

// Images of the leaves of a rule, at most 16.
pub type ImageRow = Row<Image, 16>;

// Keys held for the leaves of a rule, at most 16, each present or absent.
pub type KeyRow = Row<Option<Key>, 16>;

// A tape, at most 248 scalars: eight for each of 31 entries.
pub type TapeRow = Row<Scalar, 248>;

// The words of a transcript, at most 127.
pub type WordRow = Row<u32, 127>;

// No key, and zeros wherever one could lie.
pub fn blank_keys() -> KeyRow
    ensures none { items result ≡ [] }
    ensures zeros { places result ≡ replicate 16 (Some (scalar 0, scalar 0)) }
{
    let zeros = (Scalar::new(0), Scalar::new(0));
    Row::blank(Some(zeros))
}

// No scalar, and zeros wherever one could lie.
pub fn blank_tape() -> TapeRow
    ensures none { items result ≡ [] }
    ensures zeros { places result ≡ replicate 248 (scalar 0) }
{
    Row::blank(Scalar::new(0))
}
