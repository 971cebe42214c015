// The multiples as a set of leaf kinds.
ghost use Rattle.std.specs.Prelude.{◌≡◌, ◌&&◌, nat_le, nat_lt};
ghost use Rattle.kinds.specs.Kinds.{images};
ghost use Rattle.stranger.specs.Multiples.{written, multiples_set as meant, is_written as numbered};
ghost use Rattle.kinds.specs.Sets.{images_laws};
ghost use Rattle.stranger.specs.MultiplesLaws.{multiples_lawful};
ghost use Rattle.std.proofs.Common.{rules, arith};

use crate::multiples::Multiples;
use fields::{Field, Scalar};
use groups::Monoid;
use kinds::{Image, Key, LeafKinds};

// A number as an image.
fn written(number: u32) -> Image
    ensures { result ≡ written number }
{
    Image((number, 0), (0, 0))
}

impl Multiples {
    fn has(&self, kind: u8) -> bool
        ensures { result ≡ (nat_lt 0 kind && nat_le kind self.now.count) }
    {
        (1..=self.count).contains(&kind)
    }

    // Whether an image is a number below q.
    fn is_number(&self, image: &Image) -> bool
        ensures { result ≡ numbered self.now.scalars.q image.now }
    {
        let number = image.0.0;
        number < self.scalars.order() && *image == written(number)
    }
}

impl Monoid for Multiples {
    type Index = u8;

    type Element = Image;

    ghost monoid = { λ s n. images ((meant s.scalars.q s.base.0 s.count).kind n) };

    ghost multiplies = { λ s n. images_laws _ (multiples_lawful s.scalars.q s.base.0 s.count s.scalars.prime s.scalars.low s.scalars.high s.few) n };

    fn neutral(&self, _kind: u8) -> Image {
        Image::ZEROS
    }

    fn product(&self, _kind: u8, a: &Image, b: &Image) -> Image {
        let sum = self.scalars.sum(Scalar::new(a.0.0), Scalar::new(b.0.0));
        written(sum.value())
    }
}

impl LeafKinds for Multiples {
    ghost meaning = { λ s. meant s.scalars.q s.base.0 s.count };

    ghost lawful = { λ s. multiples_lawful s.scalars.q s.base.0 s.count s.scalars.prime s.scalars.low s.scalars.high s.few };

    ghost multiplied = { first_of (Prim.search rules, Prim.grind (arith, Self.row.coded.inj)) };

    fn order(&self) -> u32 {
        self.scalars.order()
    }

    fn count(&self) -> u8 {
        self.count
    }

    fn width(&self, kind: u8) -> u8 {
        if self.has(kind) { 1 } else { 0 }
    }

    fn is_image(&self, kind: u8, image: &Image) -> bool {
        self.has(kind) && self.is_number(image)
    }

    fn image_of_key(&self, kind: u8, key: Key) -> Image {
        let q = self.scalars.order();
        let base = fields::product_modulo(q, u32::from(kind), self.base.value());
        written(fields::product_modulo(q, key.0.value(), base))
    }
}
