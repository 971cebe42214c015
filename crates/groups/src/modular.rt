// Values that are multiplied modulo p, and of which groups of prime order are made.
ghost use Rattle.std.specs.Prelude.{◌≡◌, T};
ghost use Rattle.groups.specs.Ambients.{AmbientModel, AmbientLaws};

use crate::listed::Parameters;
use crate::monoid::Monoid;

pub trait Modular: Copy {
    // their product, for one modulus
    type Product: Monoid<Index = (), Element = Self> + Copy;

    // what groups are cut from, for every modulus, as one value
    ghost ambient: { AmbientModel Self };

    // The product modulo p.
    fn product_modulo(parameters: Parameters) -> Self::Product
        ensures { Self.Product.monoid result tt ≡ ambient.product parameters.p };

    // Whether a group of this order fits this modulus.
    fn fits(parameters: Parameters) -> bool
        ensures { result ≡ ambient.fits parameters.q parameters.p };

    // Whether each of its numbers is below p.
    fn is_reduced(self, p: u32) -> bool
        ensures { result ≡ (ambient.product p).member self };

    // Whether it may be an element of a group of this order and modulus, as far as no product is needed to tell.
    fn may_be_element(self, parameters: Parameters) -> bool
        ensures reduced { T result → T ((ambient.product parameters.p).member self) }
        ensures every { T (ambient.element parameters.q parameters.p self) → T result }
    {
        self.is_reduced(parameters.p)
    }

    // Whether it changes nothing as a factor.
    fn is_neutral(self) -> bool
        ensures { result ≡ ambient.is_one self };

    // The two words that it is written as.
    fn to_words(self) -> (u32, u32)
        ensures { result ≡ ambient.words self };

    // The value that is written as these words, if there is one, reduced or not.
    fn from_words(words: (u32, u32)) -> Option<Self>
        ensures { result ≡ ambient.read words };

    // what each implementation proves
    ghost cut: { AmbientLaws ambient };
}
