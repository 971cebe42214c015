// Arithmetic of numbers below a modulus, in 64 bits.
// kept: `as u32` at what is below the modulus: the check proves that nothing is lost, and a `TryFrom` would have a refusal that never comes
ghost use Rattle.std.specs.Prelude.{◌≡◌, ◌<◌};
ghost use Rattle.fields.specs.Modular.{sum_mod, difference_mod, negative_mod, product_mod};

pub fn sum(m: u32, a: u32, b: u32) -> u32
    requires { (a < m) × (b < m) }
    ensures { result ≡ sum_mod m a b }
{
    ((u64::from(a) + u64::from(b)) % u64::from(m)) as u32
}

pub fn difference(m: u32, a: u32, b: u32) -> u32
    requires { (a < m) × (b < m) }
    ensures { result ≡ difference_mod m a b }
{
    ((u64::from(a) + u64::from(m - b)) % u64::from(m)) as u32
}

pub fn negative(m: u32, a: u32) -> u32
    requires { a < m }
    ensures { result ≡ negative_mod m a }
{
    (m - a) % m
}

pub fn product(m: u32, a: u32, b: u32) -> u32
    requires { 0 < m }
    ensures { result ≡ product_mod m a b }
{
    (u64::from(a) * u64::from(b) % u64::from(m)) as u32
}
