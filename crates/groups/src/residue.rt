// A number that counts modulo p: an element of the residue group, or half of one of the circle group.
ghost use Rattle.std.specs.Prelude.{◌≡◌};

// kept: a newtype of the shape of the fields' `Scalar`, made and read by the same two calls: as one type, a residue would pass for a scalar
#[derive(Clone, Copy, Debug, PartialEq, Eq)]
pub struct Residue(u32);

impl Residue {
    pub fn new(value: u32) -> Residue
        ensures { result.0 ≡ value }
    {
        Residue(value)
    }

    pub fn value(self) -> u32
        ensures { result ≡ self.0 }
    {
        self.0
    }
}
