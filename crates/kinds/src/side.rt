// A kind of a join: which side it is of, and its number there.

#[derive(Clone, Copy)]
pub enum Side {
    Left(u8),
    Right(u8),
}
