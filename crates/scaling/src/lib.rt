// The four numbers of a quaternion by a scale.

#![tactic(auto)]

ghost use Rattle.std.specs.Prelude.{◌≡◌};
ghost use Rattle.scaling.specs.Quaternion.{negated16, scaled_by};

#[repr(C)]
#[derive(Clone, Copy, PartialEq)]
pub struct Quaternion {
    pub w: f64,
    pub x: f64,
    pub y: f64,
    pub z: f64,
}

// 0 less x in 16 bits: -32,768 stays.
pub fn negated(x: i16) -> i16
    ensures { result ≡ negated16 x }
{
    x.wrapping_neg()
}

// The numbers of a quaternion by a scale, x negated first.
pub fn scaled(w: i16, x: i16, y: i16, z: i16, scale: f64) -> Quaternion
    ensures { result ≡ scaled_by scale w x y z }
{
    Quaternion {
        w: w as f64 / scale,
        x: negated(x) as f64 / scale,
        y: y as f64 / scale,
        z: z as f64 / scale,
    }
}
