// The cosine's stand-in.
ghost use Rattle.std.specs.Prelude.{◌≡◌};
ghost use Rattle.float.specs.Cosine.{cos_of};

// The cosine of an angle, by Horner's scheme.
pub fn fcos(a: f64) -> f64
    ensures { result ≡ cos_of a }
{
    let t = a * a;
    let mut h = 1.0;
    for k in (1..=13u32).rev() {
        let p = (2 * k - 1) * (2 * k);
        h = 1.0 - t / (p as f64) * h;
    }
    h
}
