// The square root of a double, rounded once.
ghost use Rattle.std.specs.Prelude.{◌≡◌};
ghost use Rattle.float.specs.Root.{root_of};

// The machine's operation, for every double.
pub fn fsqrt(v: f64) -> f64
    ensures { result ≡ root_of v }
{
    v.sqrt()
}
