// Writing challenges, commitments and responses as a transcript's words.
ghost use Rattle.std.specs.Prelude.{◌≡◌, ◌+◌, ◌*◌, length, flat_map};
ghost use Rattle.releases.specs.Transcripts.{image_words, spelt};
ghost use Rattle.transcripts.specs.Transcripts.{transcript_in};

use crate::spelling::Spelt;
use crate::transcript::Transcript;
use kinds::Image;

// Writes the items into an output of W words each.
fn write<const W: usize, T: Spelt<W>>(items: &[T], out: &mut [u32])
    requires { length out.old ≡ W * length items.now }
    ensures { out.new ≡ flat_map T.spelt items.now }
{
    // kept: the words by the place of the item; after a loop over `chunks_exact_mut` a proof knows nothing of what was written.
    for (i, item) in items.iter().enumerate() {
        out[W * i..W * i + W].copy_from_slice(&item.words());
    }
}

// Writes images, four words each.
pub fn write_images(images: &[Image], out: &mut [u32])
    requires { length out.old ≡ 4 * length images.now }
    ensures { out.new ≡ image_words images.now }
{
    write(images, out);
}

// Writes a transcript's words into an output of exactly their number.
pub fn write_words(transcript: &Transcript, out: &mut [u32])
    requires { let t = transcript_in transcript.now in length out.old ≡ length t.challenges + 4 * length t.commitments + 2 * length t.responses }
    ensures { out.new ≡ spelt (transcript_in transcript.now) }
{
    let (first, rest) = out.split_at_mut(transcript.challenges.len());
    let (second, third) = rest.split_at_mut(4 * transcript.commitments.len());
    write(transcript.challenges, first);
    write(transcript.commitments, second);
    write(transcript.responses, third);
}
