// What a transcript spells by W words each: a challenge by one, a response by two, a commitment by four.
ghost use Rattle.std.specs.Prelude.{◌≡◌, ℕ, List, length};
ghost use Rattle.transcripts.specs.Spellings.{scalar_words, scalar_of, pair_words, pair_of, four_words, image_of};

use fields::Scalar;
use kinds::{Image, Key};

pub(crate) trait Spelt<const W: usize>: Copy {
    ghost spelt: { Self → List ℕ };

    ghost meant: { List ℕ → Self };

    fn words(self) -> [u32; W]
        ensures { result ≡ spelt self };

    fn of_words(words: &[u32]) -> Self
        requires { length words.now ≡ W }
        ensures { result ≡ meant words.now };
}

impl Spelt<1> for Scalar {
    ghost spelt = { scalar_words };

    ghost meant = { scalar_of };

    fn words(self) -> [u32; 1] {
        [self.value()]
    }

    fn of_words(words: &[u32]) -> Scalar {
        Scalar::new(words[0])
    }
}

impl Spelt<2> for Key {
    ghost spelt = { pair_words };

    ghost meant = { pair_of };

    fn words(self) -> [u32; 2] {
        [self.0.value(), self.1.value()]
    }

    fn of_words(words: &[u32]) -> Key {
        (Scalar::new(words[0]), Scalar::new(words[1]))
    }
}

impl Spelt<4> for Image {
    ghost spelt = { four_words };

    ghost meant = { image_of };

    fn words(self) -> [u32; 4] {
        let Image((a, b), (c, d)) = self;
        [a, b, c, d]
    }

    fn of_words(words: &[u32]) -> Image {
        Image((words[0], words[1]), (words[2], words[3]))
    }
}
