// A commutative group of prime order with two bases.
ghost use Rattle.std.specs.Prelude.{◌≡◌, T, is_some, Some};
ghost use Rattle.groups.specs.Groups.{GroupModel, GroupLaws};

use crate::monoid::Monoid;

pub trait Group: Monoid<Index = ()> {
    // what the group is beside its product, as one value
    ghost group: { Self → GroupModel Self.Element };

    fn order(&self) -> u32
        ensures { result ≡ (group self.now).order };

    fn g(&self) -> Self::Element
        ensures { result ≡ (group self.now).base_g };

    fn h(&self) -> Self::Element
        ensures { result ≡ (group self.now).base_h };

    fn to_words(&self, a: &Self::Element) -> (u32, u32)
        ensures { result ≡ (group self.now).words a.now };

    fn from_words(&self, words: (u32, u32)) -> Option<Self::Element>
        ensures { result ≡ (group self.now).reads words };

    // The element of words that are known to be one: no power is taken to test it.
    fn known_element(&self, words: (u32, u32)) -> Self::Element
        requires { T (is_some ((group self.now).reads words)) }
        ensures { (group self.now).reads words ≡ Some result };

    // what each implementation proves
    ghost lawful: { (s : Self) → GroupLaws (Self.Monoid.monoid s tt) (group s) };
}
