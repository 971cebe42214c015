// Joins of the multiples with other sets, asked by what can be asked of every set.
ghost use Rattle.std.specs.Prelude.{◌≡◌};
ghost use Rattle.groups.specs.Monoids.{power as nth};
ghost use Rattle.kinds.specs.Kinds.{images};
ghost use Rattle.kinds.specs.Joins.{join as both};
ghost use Rattle.stranger.specs.Joined.{multiples_of as meant, single_of, OfSum};

use crate::multiples::Multiples;
use groups::ResidueGroup;
use kinds::{Image, Join, Key, LeafKinds, OneKind, Single, image_power, image_product, key_image};

// The product of the images of two keys; by the laws of a set it is the image of their sum.
pub fn image_of_sum<S: LeafKinds>(set: &S, kind: u8, v: Key, w: Key) -> Image
    ensures { OfSum (S.LeafKinds.meaning set.now) kind v w result }
{
    let first = key_image(set, kind, v);
    let second = key_image(set, kind, w);
    image_product(set, kind, &first, &second)
}

// Two sets of multiples as one: the image of any pair of scalars.
pub fn image_beside_own(set: &Join<Multiples, Multiples>, kind: u8, key: Key) -> Image
    ensures { result ≡ ((both (meant set.now.left) (meant set.now.right)).kind kind).image key }
{
    key_image(set, kind, key)
}

// Multiples and any other set as one: powers of any image.
pub fn power_beside_any<S: LeafKinds>(
    set: &Join<Multiples, S>,
    kind: u8,
    image: &Image,
    exponent: u32,
) -> Image
    ensures { result ≡ nth (images ((both (meant set.now.left) (S.LeafKinds.meaning set.now.right)).kind kind)) image.now exponent }
{
    image_power(set, kind, image, exponent)
}

// Multiples and the single kind over a residue group: the generic text at this type, in the words of the two sides.
pub fn sum_beside_single(
    set: &Join<Multiples, OneKind<ResidueGroup, Single>>,
    kind: u8,
    v: Key,
    w: Key,
) -> Image
    ensures { OfSum (both (meant set.now.left) (single_of set.now.right)) kind v w result }
{
    image_of_sum(set, kind, v, w)
}
