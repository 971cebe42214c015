// Two sets of leaf kinds as one, told apart by kind number: the left's kinds first, the right's follow on.
ghost use Rattle.std.specs.Prelude.{◌≡◌, ◌&&◌, IfOk};
ghost use Rattle.refusals.specs.Checks.{told};
ghost use Rattle.kinds.specs.Kinds.{images};
ghost use Rattle.kinds.specs.Joins.{join as both, IsSide, fits, join_refusal};
ghost use Rattle.kinds.specs.Sets.{images_laws};
ghost use Rattle.kinds.specs.JoinLaws.{join_lawful};
ghost use Rattle.std.proofs.Common.{rules};

use crate::asked::{neutral_image, product_of_images};
use crate::image::Image;
use crate::key::Key;
use crate::leaf_kinds::LeafKinds;
use crate::side::Side;
use groups::Monoid;
use refusals::Refusal;

// Refuses two sets that differ in q, or have too many kinds together.
fn check_sides<L: LeafKinds, R: LeafKinds>(left: &L, right: &R) -> Result<(), Refusal>
    ensures { told result ≡ join_refusal (L.LeafKinds.meaning left.now) (R.LeafKinds.meaning right.now) }
{
    if left.order() != right.order() {
        return Err(Refusal::OrdersDiffer);
    }
    if u16::from(left.count()) + u16::from(right.count()) > 255 {
        return Err(Refusal::TooManyKinds);
    }
    Ok(())
}

#[derive(Clone, Copy, Drop)]
pub struct Join<L: LeafKinds, R: LeafKinds> {
    pub left: L,
    pub right: R,
}

impl<L: LeafKinds, R: LeafKinds> Join<L, R> {
    // The join of two sets, refused where they differ in q or have too many kinds.
    pub fn new(left: L, right: R) -> Result<Join<L, R>, Refusal>
    where
        L: Drop,
        R: Drop,
        ensures refuses { told result ≡ join_refusal (L.LeafKinds.meaning left) (R.LeafKinds.meaning right) }
        ensures makes { IfOk result (λ s. (s.left ≡ left) × (s.right ≡ right)) }
    {
        check_sides(&left, &right)?;
        Ok(Join { left, right })
    }

    fn fitting(&self) -> bool
        ensures { result ≡ fits (L.LeafKinds.meaning self.now.left) (R.LeafKinds.meaning self.now.right) }
    {
        check_sides(&self.left, &self.right).is_ok()
    }

    // Whose kind a number is: where the sides do not fit, each number is the left's.
    fn side(&self, kind: u8) -> Side
        ensures { IsSide (L.LeafKinds.meaning self.now.left) (R.LeafKinds.meaning self.now.right) kind result }
    {
        let count = self.left.count();
        if kind > count && self.fitting() {
            Side::Right(kind - count)
        } else {
            Side::Left(kind)
        }
    }
}

impl<L: LeafKinds, R: LeafKinds> Monoid for Join<L, R> {
    type Index = u8;

    type Element = Image;

    ghost monoid = { λ s n. images ((both (L.LeafKinds.meaning s.left) (R.LeafKinds.meaning s.right)).kind n) };

    ghost multiplies = { λ s n. images_laws _ (join_lawful _ _ (L.LeafKinds.lawful s.left) (R.LeafKinds.lawful s.right)) n };

    fn neutral(&self, kind: u8) -> Image {
        match self.side(kind) {
            Side::Left(kind) => neutral_image(&self.left, kind),
            Side::Right(kind) => neutral_image(&self.right, kind),
        }
    }

    fn product(&self, kind: u8, a: &Image, b: &Image) -> Image {
        match self.side(kind) {
            Side::Left(kind) => product_of_images(&self.left, kind, a, b),
            Side::Right(kind) => product_of_images(&self.right, kind, a, b),
        }
    }
}

impl<L: LeafKinds, R: LeafKinds> LeafKinds for Join<L, R> {
    ghost meaning = { λ s. both (L.LeafKinds.meaning s.left) (R.LeafKinds.meaning s.right) };

    ghost lawful = { λ s. join_lawful _ _ (L.LeafKinds.lawful s.left) (R.LeafKinds.lawful s.right) };

    ghost multiplied = { Prim.search rules };

    fn order(&self) -> u32 {
        self.left.order()
    }

    fn count(&self) -> u8 {
        if self.fitting() {
            self.left.count() + self.right.count()
        } else {
            self.left.count()
        }
    }

    fn width(&self, kind: u8) -> u8 {
        match self.side(kind) {
            Side::Left(kind) => self.left.width(kind),
            Side::Right(kind) => self.right.width(kind),
        }
    }

    fn is_image(&self, kind: u8, image: &Image) -> bool {
        match self.side(kind) {
            Side::Left(kind) => self.left.is_image(kind, image),
            Side::Right(kind) => self.right.is_image(kind, image),
        }
    }

    fn image_of_key(&self, kind: u8, key: Key) -> Image {
        match self.side(kind) {
            Side::Left(kind) => self.left.image_of_key(kind, key),
            Side::Right(kind) => self.right.image_of_key(kind, key),
        }
    }
}
