// A number that counts modulo the order q: a challenge, an exponent, a part of a key.
ghost use Rattle.std.specs.Prelude.{◌≡◌};

#[derive(Clone, Copy, PartialEq, Eq)]
pub struct Scalar(u32);

impl Scalar {
    // kept: `new` and `value` read as plainly as `From` both ways, and no number becomes a scalar, or a residue, by an `into` that nobody sees
    pub fn new(value: u32) -> Scalar
        ensures { result.0 ≡ value }
    {
        Scalar(value)
    }

    pub fn value(self) -> u32
        ensures { result ≡ self.0 }
    {
        self.0
    }
}
