//! Greatest common divisors, and numbers in lowest terms.

ghost use Rattle.std.specs.Prelude.{◌≡◌, ◌<ℤ◌, ◌*ℤ◌};
ghost use Rattle.nef_geo.specs.Prelude.{pos, nat_abs, IsGcd, point_limit, IsAtMostFour, IsSomeOfFour, IsGcdOfFour, IsReduced};
ghost use Rattle.nef_space.specs.Prelude.{◌∣◌};

// Euclid's algorithm.
fn gcd(a: u64, b: u64) -> u64
    ensures gcd { IsGcd a b result }
{
    let mut x = a;
    let mut y = b;
    while y != 0 {
        let rest = x % y;
        x = y;
        y = rest;
    }
    x
}

fn gcd_of_four(x: i64, y: i64, z: i64, w: i64) -> i64
    requires small { IsAtMostFour point_limit x y z w }
    requires some { IsSomeOfFour x y z w }
    ensures gcd { IsGcdOfFour x y z w result }
{
    // the weight of a point is mostly the least of the four, so that few steps are left
    let of_two = gcd(w.unsigned_abs(), x.unsigned_abs());
    let of_three = gcd(of_two, y.unsigned_abs());
    gcd(of_three, z.unsigned_abs()) as i64
}

// The quotient x/divisor, where the divisor divides x.
fn part(x: i64, divisor: i64) -> i64
    requires positive { pos 0 <ℤ divisor }
    requires divides { nat_abs divisor ∣ nat_abs x }
    ensures whole { x ≡ divisor *ℤ result }
{
    // most numbers are in lowest terms already
    if divisor == 1 {
        return x;
    }
    x / divisor
}

// The four numbers, divided by their greatest common divisor. For three numbers the last is 0.
pub(crate) fn lowest_terms(x: i64, y: i64, z: i64, w: i64) -> (i64, i64, i64, i64)
    requires small { IsAtMostFour point_limit x y z w }
    requires some { IsSomeOfFour x y z w }
    ensures reduced { IsReduced x y z w result.0 result.1 result.2 result.3 }
{
    let divisor = gcd_of_four(x, y, z, w);
    (
        part(x, divisor),
        part(y, divisor),
        part(z, divisor),
        part(w, divisor),
    )
}
