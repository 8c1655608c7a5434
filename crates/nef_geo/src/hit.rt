//! Hits: points on rays, with the steps at which they lie.

ghost use Rattle.std.specs.Prelude.{◌≡◌, ◌≤◌, ◌≤ℤ◌, ◌<ℤ◌};
ghost use Rattle.nef_space.specs.Prelude.{pos, nat_abs};
ghost use Rattle.nef_geo.specs.Widths.{point_form_limit, ray_slope_limit, hit_limit, hit_weight_limit, far_limit, far_weight_limit, far_num_limit, far_den_limit};

/// A point on a ray from a point: the point `(x/w, y/w, z/w)`, at the step `num/den`. Its first three coordinates are
/// the start's first three numbers plus the step times the direction, over the start's w. w and den are positive, and
/// num is positive but where the hit is the start itself.
#[derive(Clone, Copy)]
pub struct Hit {
    pub(crate) x: i128,
    pub(crate) y: i128,
    pub(crate) z: i128,
    pub(crate) w: i128,
    pub(crate) num: i128,
    pub(crate) den: i128,
    pub ghost x_small: { nat_abs x ≤ hit_limit },
    pub ghost y_small: { nat_abs y ≤ hit_limit },
    pub ghost z_small: { nat_abs z ≤ hit_limit },
    pub ghost w_small: { nat_abs w ≤ hit_weight_limit },
    pub ghost num_small: { nat_abs num ≤ point_form_limit },
    pub ghost den_small: { nat_abs den ≤ ray_slope_limit },
    pub ghost proper: { pos 0 <ℤ w },
    pub ghost num_sign: { pos 0 ≤ℤ num },
    pub ghost den_sign: { pos 0 <ℤ den },
}

/// A point on a ray from a hit: `(x/w, y/w, z/w)`, at the step `num/den`, as in [`Hit`]. w, num and den are positive.
#[derive(Clone, Copy)]
pub struct FarHit {
    pub(crate) x: i128,
    pub(crate) y: i128,
    pub(crate) z: i128,
    pub(crate) w: i128,
    pub(crate) num: i128,
    pub(crate) den: i128,
    pub ghost x_small: { nat_abs x ≤ far_limit },
    pub ghost y_small: { nat_abs y ≤ far_limit },
    pub ghost z_small: { nat_abs z ≤ far_limit },
    pub ghost w_small: { nat_abs w ≤ far_weight_limit },
    pub ghost num_small: { nat_abs num ≤ far_num_limit },
    pub ghost den_small: { nat_abs den ≤ far_den_limit },
    pub ghost proper: { pos 0 <ℤ w },
    pub ghost num_sign: { pos 0 <ℤ num },
    pub ghost den_sign: { pos 0 <ℤ den },
}

impl Hit {
    pub fn x(&self) -> i128
        ensures x { result ≡ self.now.x }
    {
        self.x
    }

    pub fn y(&self) -> i128
        ensures y { result ≡ self.now.y }
    {
        self.y
    }

    pub fn z(&self) -> i128
        ensures z { result ≡ self.now.z }
    {
        self.z
    }

    pub fn w(&self) -> i128
        ensures w { result ≡ self.now.w }
    {
        self.w
    }

    pub fn num(&self) -> i128
        ensures num { result ≡ self.now.num }
    {
        self.num
    }

    pub fn den(&self) -> i128
        ensures den { result ≡ self.now.den }
    {
        self.den
    }
}

impl FarHit {
    pub fn x(&self) -> i128
        ensures x { result ≡ self.now.x }
    {
        self.x
    }

    pub fn y(&self) -> i128
        ensures y { result ≡ self.now.y }
    {
        self.y
    }

    pub fn z(&self) -> i128
        ensures z { result ≡ self.now.z }
    {
        self.z
    }

    pub fn w(&self) -> i128
        ensures w { result ≡ self.now.w }
    {
        self.w
    }

    pub fn num(&self) -> i128
        ensures num { result ≡ self.now.num }
    {
        self.num
    }

    pub fn den(&self) -> i128
        ensures den { result ≡ self.now.den }
    {
        self.den
    }
}
