// Reading a transcript's words into challenges, commitments and responses.
ghost use Rattle.std.specs.Prelude.{◌≡◌, ◌+◌, ◌*◌, ◌≤◌, map, length, take, drop};
ghost use Rattle.std.specs.Simd.{first_chunks};
ghost use Rattle.fields.specs.Scalars.{scalar};
ghost use Rattle.releases.specs.Transcripts.{images_in, keys_in};

use crate::spelling::Spelt;
use fields::Scalar;
use kinds::{Image, Key};

// Reads words of W each into as many items as there is room for.
fn read<const W: usize, T: Spelt<W>>(words: &[u32], items: &mut [T])
    requires { W * length items.old ≤ length words.now }
    ensures { items.new ≡ map T.meant (first_chunks W (length items.old) words.now) }
{
    // kept: the words by the place of the item; after a zip of `iter_mut` with `chunks_exact` a proof knows nothing of what was written.
    for (i, item) in items.iter_mut().enumerate() {
        *item = T::of_words(&words[W * i..W * i + W]);
    }
}

// Reads the words into challenges, commitments and responses, as many as there is room for.
// kept: three lists: as one value they would be a second struct, of lists that are written, for this call alone
pub fn read_words(
    words: &[u32],
    challenges: &mut [Scalar],
    commitments: &mut [Image],
    responses: &mut [Key],
)
    requires { length words.now ≡ length challenges.old + 4 * length commitments.old + 2 * length responses.old }
    ensures challenges { challenges.new ≡ map scalar (take (length challenges.old) words.now) }
    ensures commitments { commitments.new ≡ images_in (length commitments.old) (drop (length challenges.old) words.now) }
    ensures responses { responses.new ≡ keys_in (length responses.old) (drop (length challenges.old + 4 * length commitments.old) words.now) }
{
    let n = challenges.len();
    let l = commitments.len();
    read(words, challenges);
    read(&words[n..], commitments);
    read(&words[n + 4 * l..], responses);
}
