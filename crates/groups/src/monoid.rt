// Products with a neutral element, and powers by square and multiply: one text for every group and every set of leaf kinds.
ghost use Rattle.std.specs.Prelude.{◌≡◌, T};
ghost use Rattle.groups.specs.Monoids.{MonoidModel, MonoidLaws, power as nth};

pub trait Monoid {
    // which product is meant, where there are several: a group has one, a set of leaf kinds one for each kind
    type Index: Copy;

    type Element: Copy;

    // what each product is, as one value
    ghost monoid: { Self → Self.Index → MonoidModel Self.Element };

    fn neutral(&self, at: Self::Index) -> Self::Element
        ensures { result ≡ (monoid self.now at).one };

    fn product(&self, at: Self::Index, a: &Self::Element, b: &Self::Element) -> Self::Element
        requires { (T ((monoid self.now at).member a.now)) × (T ((monoid self.now at).member b.now)) }
        ensures { result ≡ (monoid self.now at).times a.now b.now };

    // what each implementation proves
    ghost multiplies: { (s : Self) (i : Self.Index) → MonoidLaws (monoid s i) };
}

pub fn power<M: Monoid>(monoid: &M, at: M::Index, base: &M::Element, exponent: u32) -> M::Element
    requires { T ((M.Monoid.monoid monoid.now at).member base.now) }
    ensures value { result ≡ nth (M.Monoid.monoid monoid.now at) base.now exponent }
    ensures member { T ((M.Monoid.monoid monoid.now at).member result) }
{
    let mut result = monoid.neutral(at);
    let mut square = *base;
    let mut left = exponent;
    // kept: going over the bits of the exponent by an iterator is no plainer than halving it
    while left > 0 {
        if left % 2 == 1 {
            result = monoid.product(at, &result, &square);
        }
        square = monoid.product(at, &square, &square);
        left /= 2;
    }
    result
}
