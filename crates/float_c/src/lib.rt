// The float layer for C to call, for comparison runs.
#![tactic(auto)]

ghost use Rattle.std.specs.Prelude.{◌≡◌, ◌≤◌, ◌^◌};
ghost use Rattle.float.specs.Root.{root_of};
ghost use Rattle.float.specs.Cosine.{cos_of};
ghost use Rattle.float.specs.Decimal.{decimal_of};
ghost use Rattle.float_c.specs.Export.{or_nan};

#[unsafe(no_mangle)]
pub extern "C" fn float_fsqrt(v: f64) -> f64
    ensures { result ≡ root_of v }
{
    float::root::fsqrt(v)
}

#[unsafe(no_mangle)]
pub extern "C" fn float_fcos(a: f64) -> f64
    ensures { result ≡ cos_of a }
{
    float::cosine::fcos(a)
}

// A literal whose power of ten is out of range is a NaN: every value is finite.
#[unsafe(no_mangle)]
pub extern "C" fn float_decimal(w: u64, p: i64, minus: bool) -> f64
    requires { w ≤ 2 ^ 53 }
    ensures { result ≡ or_nan (decimal_of w p minus) }
{
    float::decimal::decimal(w, p, minus).unwrap_or(f64::NAN)
}
