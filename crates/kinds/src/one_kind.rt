// One group as a set of one kind, of a given form. At twin an image is the words of two elements, else those of one and two zeros.
ghost use Rattle.std.specs.Prelude.{◌≡◌, T, is_some, Some};
ghost use Rattle.kinds.specs.Kinds.{images};
ghost use Rattle.kinds.specs.GroupKinds.{form_set as meant};
ghost use Rattle.kinds.specs.Sets.{images_laws};
ghost use Rattle.kinds.specs.GroupLaws.{form_lawful};
ghost use Rattle.std.proofs.Common.{rules};

use crate::form::{Form, Shape};
use crate::image::Image;
use crate::key::Key;
use crate::leaf_kinds::LeafKinds;
use groups::{Group, Monoid, power};

#[derive(Clone, Copy, Drop)]
pub struct OneKind<G: Group, F: Shape> {
    pub group: G,
    pub form: F,
}

// The words of the product of two elements that are known to be elements.
fn product_in_words<G: Group>(group: &G, a: (u32, u32), b: (u32, u32)) -> (u32, u32)
    requires { (T (is_some ((G.Group.group group.now).reads a))) × (T (is_some ((G.Group.group group.now).reads b))) }
    ensures { (x y : _) → (G.Group.group group.now).reads a ≡ Some x → (G.Group.group group.now).reads b ≡ Some y → result ≡ (G.Group.group group.now).words ((G.Monoid.monoid group.now tt).times x y) }
{
    let x = group.known_element(a);
    let y = group.known_element(b);
    group.to_words(&group.product((), &x, &y))
}

impl<G: Group, F: Shape> Monoid for OneKind<G, F> {
    type Index = u8;

    type Element = Image;

    ghost monoid = { λ s n. images ((meant (G.Monoid.monoid s.group tt) (G.Group.group s.group) F.form).kind n) };

    ghost multiplies = { λ s n. images_laws _ (form_lawful (G.Monoid.multiplies s.group tt) (G.Group.lawful s.group) F.form) n };

    fn neutral(&self, kind: u8) -> Image {
        if kind != 1 {
            return Image::ZEROS;
        }
        let one = self.group.to_words(&self.group.neutral(()));
        match F::form() {
            Form::Single | Form::Mixed => Image(one, (0, 0)),
            Form::Twin => Image(one, one),
        }
    }

    fn product(&self, _kind: u8, a: &Image, b: &Image) -> Image {
        let first = product_in_words(&self.group, a.0, b.0);
        match F::form() {
            Form::Single | Form::Mixed => Image(first, (0, 0)),
            Form::Twin => Image(first, product_in_words(&self.group, a.1, b.1)),
        }
    }
}

impl<G: Group, F: Shape> LeafKinds for OneKind<G, F> {
    ghost meaning = { λ s. meant (G.Monoid.monoid s.group tt) (G.Group.group s.group) F.form };

    ghost lawful = { λ s. form_lawful (G.Monoid.multiplies s.group tt) (G.Group.lawful s.group) F.form };

    ghost multiplied = { Prim.search rules };

    fn order(&self) -> u32 {
        self.group.order()
    }

    fn count(&self) -> u8 {
        1
    }

    fn width(&self, kind: u8) -> u8 {
        if kind != 1 {
            return 0;
        }
        match F::form() {
            Form::Single | Form::Twin => 1,
            Form::Mixed => 2,
        }
    }

    fn is_image(&self, kind: u8, image: &Image) -> bool {
        let group = &self.group;
        kind == 1
            && match F::form() {
                Form::Single | Form::Mixed => {
                    image.1 == (0, 0) && group.from_words(image.0).is_some()
                }
                Form::Twin => {
                    group.from_words(image.0).is_some() && group.from_words(image.1).is_some()
                }
            }
    }

    fn image_of_key(&self, _kind: u8, key: Key) -> Image {
        let group = &self.group;
        let first = power(group, (), &group.g(), key.0.value());
        match F::form() {
            Form::Single => Image(group.to_words(&first), (0, 0)),
            Form::Twin => {
                let second = power(group, (), &group.h(), key.0.value());
                Image(group.to_words(&first), group.to_words(&second))
            }
            Form::Mixed => {
                let second = power(group, (), &group.h(), key.1.value());
                let product = group.product((), &first, &second);
                Image(group.to_words(&product), (0, 0))
            }
        }
    }
}
