// A key of a leaf kind, the witness of a leaf: a pair of scalars, at width 1 with 0 as the second.
use fields::Scalar;

pub type Key = (Scalar, Scalar);
