// A set of leaf kinds: the interface that a bench stands on.
ghost use Rattle.std.specs.Prelude.{◌≡◌, ℕ, T};
ghost use Rattle.kinds.specs.Kinds.{KindModel, Lawful, images, is_key as keyed};

use crate::image::Image;
use crate::key::Key;
use groups::Monoid;

// The products are those of images, one for each kind number.
pub trait LeafKinds: Monoid<Index = u8, Element = Image> {
    // what the set is, as one value
    ghost meaning: { Self → KindModel };

    // The order q that scalars count by.
    fn order(&self) -> u32
        ensures { result ≡ (meaning self.now).q };

    // Kinds are numbered from 1 to this.
    fn count(&self) -> u8
        ensures { result ≡ (meaning self.now).count };

    // How many scalars a key of this kind has: 1 or 2, and 0 at a number that no kind has.
    // kept: a count that is added up and printed; an Option would be read as 0 at each use
    fn width(&self, kind: u8) -> u8
        ensures { result ≡ ((meaning self.now).kind kind).width };

    fn is_image(&self, kind: u8, image: &Image) -> bool
        ensures { result ≡ ((meaning self.now).kind kind).is_image image.now };

    // The image of a key that is known to be one: no test is made.
    fn image_of_key(&self, kind: u8, key: Key) -> Image
        requires { T (keyed (meaning self.now).q ((meaning self.now).kind kind).width key) }
        ensures { result ≡ ((meaning self.now).kind kind).image key };

    // what each implementation proves
    ghost lawful: { (s : Self) → Lawful (meaning s) };

    ghost multiplied: { (s : Self) (n : ℕ) → Self.Monoid.monoid s n ≡ images ((meaning s).kind n) };
}
