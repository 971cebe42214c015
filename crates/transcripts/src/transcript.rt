// A transcript as its three lists: a challenge to an entry of a rule, a commitment and a response to a leaf.
use fields::Scalar;
use kinds::{Image, Key};

#[derive(Clone, Copy)]
pub struct Transcript<'a> {
    pub challenges: &'a [Scalar],
    pub commitments: &'a [Image],
    pub responses: &'a [Key],
}
