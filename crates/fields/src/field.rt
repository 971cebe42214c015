// A field by its operations and its laws: what splitting a challenge asks for.
ghost use Rattle.std.specs.Prelude.{◌≡◌, ◌≤◌, T, ◌≢◌, Decides};
ghost use Rattle.fields.specs.Fields.{FieldModel, FieldLaws, minus};
ghost use Rattle.fields.specs.Sizes.{Small};

pub trait Field {
    type Element: Copy + PartialEq;

    // what the field is, as one value
    ghost model: { Self → FieldModel Self.Element };

    fn zero(&self) -> Self::Element
        ensures { result ≡ (model self.now).zero };

    fn one(&self) -> Self::Element
        ensures { result ≡ (model self.now).one };

    fn point(&self, j: u8) -> Self::Element
        requires { j ≤ 8 }
        ensures { result ≡ (model self.now).point j };

    // kept: what the operands are, at each operation: an element is known by the field that it is asked of, and not by its type
    fn sum(&self, a: Self::Element, b: Self::Element) -> Self::Element
        requires { (T ((model self.now).member a)) × (T ((model self.now).member b)) }
        ensures { result ≡ (model self.now).plus a b };

    fn difference(&self, a: Self::Element, b: Self::Element) -> Self::Element
        requires { (T ((model self.now).member a)) × (T ((model self.now).member b)) }
        ensures { result ≡ minus (model self.now) a b };

    fn negative(&self, a: Self::Element) -> Self::Element
        requires { T ((model self.now).member a) }
        ensures { result ≡ (model self.now).negative a };

    fn product(&self, a: Self::Element, b: Self::Element) -> Self::Element
        requires { (T ((model self.now).member a)) × (T ((model self.now).member b)) }
        ensures { result ≡ (model self.now).times a b };

    // The element that times the divisor is the dividend.
    fn quotient(&self, dividend: Self::Element, divisor: Self::Element) -> Self::Element
        requires { (T ((model self.now).member dividend)) × ((T ((model self.now).member divisor)) × ((divisor ≢ (model self.now).zero))) }
        ensures member { T ((model self.now).member result) }
        ensures divides { (model self.now).times result divisor ≡ dividend };

    // what each implementation proves
    ghost lawful: { (s : Self) → FieldLaws (model s) };

    // elements compare as equal where they are the same, and nowhere else
    ghost same: { (a b : Self.Element) → Decides (Self.Element.eq a b) (a ≡ b) };

    // arrays of elements fit in memory
    ghost small: { Small Self.Element.row };
}
