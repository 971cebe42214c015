// Lagrange's formula in plain numbers, with nothing taken from what it is compared with. The sums and products stay below 2 ^ 64 for moduli below 2 ^ 31.
// kept: casts by `as`: nothing is lost, as the check proves; behind a `From` a number is a new one to the proof, and a `TryFrom` has a refusal that never comes
ghost use Rattle.std.specs.Prelude.{◌<◌};

// a to the q - 2, the inverse of a where q is a prime
fn inverse(q: u64, a: u64) -> u64
    requires { 0 < q }
{
    let mut result = 1;
    let mut power = a;
    let mut rest = q.wrapping_sub(2);
    for _ in 0..31 {
        if rest % 2 == 1 {
            result = power.wrapping_mul(result) % q;
        }
        power = power.wrapping_mul(power) % q;
        rest /= 2;
    }
    result
}

// The part of the value at x that the known challenge at point i gives.
fn part(q: u64, known: &[Option<u32>], i: usize, y: u32, x: u64) -> u64
    requires { 0 < q }
{
    let mut above = u64::from(y);
    let mut below = 1u64;
    for (j, challenge) in known.iter().enumerate() {
        if j != i && challenge.is_some() {
            above = above.wrapping_mul(x.wrapping_add(q).wrapping_sub(j as u64)) % q;
            below = below.wrapping_mul((i as u64).wrapping_add(q).wrapping_sub(j as u64)) % q;
        }
    }
    above.wrapping_mul(inverse(q, below)) % q
}

// The value at x of the polynomial through the known challenges, where known[j] stands at point j.
pub fn lagrange(q: u64, known: &[Option<u32>], x: u64) -> u64
    requires { 0 < q }
{
    let mut value = 0u64;
    for (i, challenge) in known.iter().enumerate() {
        if let Some(y) = *challenge {
            value = value.wrapping_add(part(q, known, i, y, x)) % q;
        }
    }
    value
}
