// Reading a ring over any set of leaf kinds.
// kept: casts by `as`: nothing is lost, as the check proves; behind a `From` a number is a new one to the proof, and a `TryFrom` has a refusal that never comes
ghost use Rattle.std.specs.Prelude.{◌≡◌, IfOk};
ghost use Rattle.refusals.specs.Checks.{told};
ghost use Rattle.rings.specs.Rings.{ring_lines, line_refusal, ring_refusal, lines_in};

use crate::line::{LINE_BYTES, Line, Lines, MOST_LINES};
use kinds::LeafKinds;
use refusals::Refusal;

// Refuses a line whose number is not above the last one, or whose words are no image of its kind.
fn check_line<S: LeafKinds>(set: &S, last: u8, place: u8, line: &Line) -> Result<(), Refusal>
    ensures { told result ≡ line_refusal (S.LeafKinds.meaning set.now) last place line.now }
{
    if line.number <= last {
        return Err(Refusal::NotRising(place));
    }
    if !set.is_image(line.kind, &line.image) {
        return Err(Refusal::NoImage(place));
    }
    Ok(())
}

// Reads a ring: its length first, then line by line.
pub fn read_ring<S: LeafKinds>(set: &S, bytes: &[u8]) -> Result<Lines, Refusal>
    ensures refuses { told result ≡ ring_refusal (S.LeafKinds.meaning set.now) bytes.now }
    ensures reads { IfOk result (λ lines. lines_in lines ≡ ring_lines bytes.now) }
{
    let (chunks, []) = bytes.as_chunks::<LINE_BYTES>() else {
        return Err(Refusal::RingLength);
    };
    if chunks.is_empty() || chunks.len() > MOST_LINES {
        return Err(Refusal::RingLength);
    }
    let mut lines = Lines::blank(Line::default());
    let mut last = 0;
    for (i, chunk) in chunks.iter().enumerate() {
        let line = Line::from(chunk);
        check_line(set, last, i as u8, &line)?;
        last = line.number;
        lines.push(line);
    }
    Ok(lines)
}
