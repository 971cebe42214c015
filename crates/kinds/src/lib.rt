// Sets of leaf kinds.
#![tactic(auto)]

mod asked;
mod form;
mod image;
mod join;
mod key;
mod leaf_kinds;
mod one_kind;
mod side;

pub use asked::{
    image_power, image_product, is_key, key_image, neutral_image, power_of_image, product_of_images,
};
pub use form::{Form, Mixed, Shape, Single, Twin};
pub use image::Image;
pub use join::Join;
pub use key::Key;
pub use leaf_kinds::LeafKinds;
pub use one_kind::OneKind;
