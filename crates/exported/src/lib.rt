// A few calls for programs in other languages, on numbers and byte slices: what the library is measured by.
// kept: casts by `as`: nothing is lost, as the check proves; behind a `From` a number is a new one to the proof, and a `TryFrom` has a refusal that never comes
#![tactic(auto)]

ghost use Rattle.std.specs.Prelude.{◌≡◌, List, length};
ghost use Rattle.rules.specs.Tables.{Row};
ghost use Rattle.rules.specs.Texts.{Means};
ghost use Rattle.exported.specs.Powers.{residue_power, circle_power};

use groups::{Circle, Residue, Residues, power};
use rules::read;

// kept: the two powers as two texts: each is a C function, and they differ in their numbers, their test and their result
// y to the power of the exponent modulo p; 0 where y is not below p, or p is below 2.
#[unsafe(no_mangle)]
pub extern "C" fn lemonbilge_power_residue(p: u32, y: u32, exponent: u32) -> u32
    ensures { result ≡ residue_power p y exponent }
{
    let Some(residues) = Residues::new(p) else {
        return 0;
    };
    if y >= p {
        return 0;
    }
    power(&residues, (), &Residue::new(y), exponent).value()
}

// The pair (a, b) to the power of the exponent modulo p: the first word in the high half, the second in the low one.
#[unsafe(no_mangle)]
pub extern "C" fn lemonbilge_power_circle(p: u32, a: u32, b: u32, exponent: u32) -> u64
    ensures { result ≡ circle_power p a b exponent }
{
    let Some(circle) = Circle::new(p) else {
        return 0;
    };
    if a >= p || b >= p {
        return 0;
    }
    let (first, second) = power(&circle, (), &(Residue::new(a), Residue::new(b)), exponent);
    u64::from(first.value()) * 4294967296 + u64::from(second.value())
}

// How many entries the rule of a text has; 0 where the text is refused.
#[unsafe(no_mangle)]
pub extern "C" fn lemonbilge_rule_read(text: &[u8]) -> u32
    ensures read { (es : List Row) → Means text.now es → result ≡ length es }
    ensures refused { ((es : List Row) → Means text.now es → ⊥) → result ≡ 0 }
{
    read(text).map_or(0, |table| table.len() as u32)
}
