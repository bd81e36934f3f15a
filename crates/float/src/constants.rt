// The constants of float.rs that the port takes, by document 01's decimals.
ghost use Rattle.std.specs.Prelude.{◌≡◌};
ghost use Rattle.float.specs.Constants.{constants};

pub const SQRT_2: f64 = 1.4142135623730951;

pub const SQRT_3: f64 = 1.7320508075688772;

pub const SQRT_5: f64 = 2.23606797749979;

pub const PI: f64 = 3.141592653589793;

pub const EPS: f64 = 1e-7;

#[derive(Clone, Copy)]
pub struct Constants {
    pub sqrt_2: f64,
    pub sqrt_3: f64,
    pub sqrt_5: f64,
    pub pi: f64,
    pub eps: f64,
}

// The constants with a promise: a `const` has none of its own.
pub fn values() -> Constants
    ensures { result ≡ constants }
{
    Constants {
        sqrt_2: SQRT_2,
        sqrt_3: SQRT_3,
        sqrt_5: SQRT_5,
        pi: PI,
        eps: EPS,
    }
}
