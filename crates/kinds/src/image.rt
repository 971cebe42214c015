// An image of a leaf kind: the words of one element and two zeros, or of two elements.

#[derive(Clone, Copy, Debug, Default, PartialEq, Eq)]
pub struct Image(pub (u32, u32), pub (u32, u32));

impl Image {
    // What is written where there is no image.
    pub const ZEROS: Image = Image((0, 0), (0, 0));
}
