// What can be asked of every set of leaf kinds, on any input.
ghost use Rattle.std.specs.Prelude.{◌≡◌, T};
ghost use Rattle.groups.specs.Monoids.{power as nth};
ghost use Rattle.kinds.specs.Kinds.{images, is_key as keyed};

use crate::image::Image;
use crate::key::Key;
use crate::leaf_kinds::LeafKinds;
use groups::power;

// Whether the pair is a key of this kind.
pub fn is_key<S: LeafKinds>(set: &S, kind: u8, key: Key) -> bool
    ensures { result ≡ keyed (S.LeafKinds.meaning set.now).q ((S.LeafKinds.meaning set.now).kind kind).width key }
{
    let q = set.order();
    let (first, second) = (key.0.value(), key.1.value());
    match set.width(kind) {
        2 => first < q && second < q,
        1 => first < q && second == 0,
        _ => false,
    }
}

// The image of any pair of scalars; four zeros where it is no key of this kind.
pub fn key_image<S: LeafKinds>(set: &S, kind: u8, key: Key) -> Image
    ensures { result ≡ ((S.LeafKinds.meaning set.now).kind kind).image key }
{
    if is_key(set, kind, key) {
        set.image_of_key(kind, key)
    } else {
        Image::ZEROS
    }
}

// The neutral image; four zeros at a number that no kind has.
pub fn neutral_image<S: LeafKinds>(set: &S, kind: u8) -> Image
    ensures { result ≡ ((S.LeafKinds.meaning set.now).kind kind).neutral }
{
    set.neutral(kind)
}

// The product of two images that are known to be images: no power is taken to test it.
pub fn product_of_images<S: LeafKinds>(set: &S, kind: u8, a: &Image, b: &Image) -> Image
    requires { (T (((S.LeafKinds.meaning set.now).kind kind).is_image a.now)) × (T (((S.LeafKinds.meaning set.now).kind kind).is_image b.now)) }
    ensures { result ≡ ((S.LeafKinds.meaning set.now).kind kind).product a.now b.now }
{
    set.product(kind, a, b)
}

// The product of any two images; four zeros where one of them is none.
pub fn image_product<S: LeafKinds>(set: &S, kind: u8, a: &Image, b: &Image) -> Image
    ensures { result ≡ ((S.LeafKinds.meaning set.now).kind kind).product a.now b.now }
{
    if set.is_image(kind, a) && set.is_image(kind, b) {
        product_of_images(set, kind, a, b)
    } else {
        Image::ZEROS
    }
}

// The power of an image that is known to be one: no power is taken to test it.
pub fn power_of_image<S: LeafKinds>(set: &S, kind: u8, image: &Image, exponent: u32) -> Image
    requires { T (((S.LeafKinds.meaning set.now).kind kind).is_image image.now) }
    ensures value { result ≡ nth (images ((S.LeafKinds.meaning set.now).kind kind)) image.now exponent }
    ensures member { T (((S.LeafKinds.meaning set.now).kind kind).is_image result) }
{
    power(set, kind, image, exponent)
}

// The power of any image by repeated product; where it is none, every product is four zeros.
pub fn image_power<S: LeafKinds>(set: &S, kind: u8, image: &Image, exponent: u32) -> Image
    ensures { result ≡ nth (images ((S.LeafKinds.meaning set.now).kind kind)) image.now exponent }
{
    if set.is_image(kind, image) {
        power_of_image(set, kind, image, exponent)
    } else if exponent == 0 {
        neutral_image(set, kind)
    } else {
        Image::ZEROS
    }
}
