// Polynomials in Newton's form: c0 + (x - a0)(c1 + (x - a1)(c2 + ..)), with the nodes a and the coefficients c.
// kept: nodes and coefficients are two slices, not one type: coefficients are written where the values at the nodes stood, and that all are elements hangs on a field that no type of slices has
ghost use Rattle.std.specs.Prelude.{◌≡◌, ℕ, ◌<◌, ◌≤◌, T, List, length, ◌≢◌, slice_index_or};
ghost use Rattle.fields.specs.Fields.{minus};
ghost use Rattle.polynomials.specs.Polynomials.{Members, Apart, Passes, Vanishes, Polynomial, newton as form, weight as factors};

use fields::Field;

// The value at x, with one product for each node but the last.
pub fn value<F: Field>(
    field: &F,
    nodes: &[F::Element],
    coefficients: &[F::Element],
    x: F::Element,
) -> F::Element
    requires sizes { (length nodes.now ≡ length coefficients.now) × (0 < length nodes.now) }
    requires elements { let m = F.Field.model field.now in (Members m nodes.now) × ((Members m coefficients.now) × (T (m.member x))) }
    ensures value { result ≡ form (F.Field.model field.now) nodes.now coefficients.now x }
    ensures few_roots { let m = F.Field.model field.now in ((zs : List F.Element) → Members m zs → Apart m zs → length nodes.now ≤ length zs → Vanishes m (form m nodes.now coefficients.now) zs → result ≡ m.zero) }
{
    let last = nodes.len() - 1;
    let mut sum = coefficients[last];
    let pairs = nodes[..last]
        .iter()
        .rev()
        .zip(coefficients[..last].iter().rev());
    for (node, coefficient) in pairs {
        let product = field.product(field.difference(x, *node), sum);
        sum = field.sum(*coefficient, product);
    }
    sum
}

// The product of x - n over the nodes n.
fn weight<F: Field>(field: &F, nodes: &[F::Element], x: F::Element) -> F::Element
    requires { let m = F.Field.model field.now in (Members m nodes.now) × (T (m.member x)) }
    ensures { result ≡ factors (F.Field.model field.now) nodes.now x }
{
    let mut product = field.one();
    for node in nodes.iter().rev() {
        product = field.product(field.difference(x, *node), product);
    }
    product
}

// The coefficient with which a form takes the value y at one node more, x.
fn coefficient<F: Field>(
    field: &F,
    nodes: &[F::Element],
    coefficients: &[F::Element],
    x: F::Element,
    y: F::Element,
) -> F::Element
    requires sizes { (length nodes.now ≡ length coefficients.now) × (0 < length nodes.now) }
    requires elements { let m = F.Field.model field.now in (Members m nodes.now) × ((Members m coefficients.now) × ((T (m.member x)) × (T (m.member y)))) }
    requires away { let m = F.Field.model field.now in ((j : ℕ) → j < length nodes.now → x ≢ slice_index_or nodes.now j m.zero) }
    ensures member { T ((F.Field.model field.now).member result) }
    ensures fits { let m = F.Field.model field.now in m.times result (factors m nodes.now x) ≡ minus m y (form m nodes.now coefficients.now x) }
{
    let before = value(field, nodes, coefficients, x);
    field.quotient(field.difference(y, before), weight(field, nodes, x))
}

// Turns the values at the points into the coefficients in Newton's form on these points.
// For n points: n - 1 quotients, and (n - 1)(n - 1) products besides.
pub fn interpolate<F: Field>(field: &F, points: &[F::Element], values: &mut [F::Element])
    requires sizes { length points.now ≡ length values.old }
    requires elements { let m = F.Field.model field.now in (Members m points.now) × (Members m values.old) }
    requires apart { Apart (F.Field.model field.now) points.now }
    ensures elements { Members (F.Field.model field.now) values.new }
    ensures polynomial { let m = F.Field.model field.now in Polynomial m (length points.now) (form m points.now values.new) }
    ensures passes { let m = F.Field.model field.now in Passes m (form m points.now values.new) points.now values.old }
    ensures only { let m = F.Field.model field.now in ((f : F.Element → F.Element) → Polynomial m (length points.now) f → Passes m f points.now values.old → (x : F.Element) → T (m.member x) → f x ≡ form m points.now values.new x) }
{
    // kept: i is also the length of the parts from which the next coefficient is found, and `values` is written to
    for i in 1..points.len() {
        let y = values[i];
        let next = coefficient(field, &points[..i], &values[..i], points[i], y);
        values[i] = next;
    }
}
