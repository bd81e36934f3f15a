// The value of a literal: its digits w as a whole number, its power of ten p, its sign.
ghost use Rattle.std.specs.Prelude.{true, ◌≡◌, ◌≤◌, ◌^◌};
ghost use Rattle.float.specs.Numbers.{whole};
ghost use Rattle.float.specs.Decimal.{in_range, value, decimal_of};

// The powers of ten that a double holds exactly.
const TENS: [f64; 23] = [
    1e0, 1e1, 1e2, 1e3, 1e4, 1e5, 1e6, 1e7, 1e8, 1e9, 1e10, 1e11, 1e12, 1e13, 1e14, 1e15, 1e16,
    1e17, 1e18, 1e19, 1e20, 1e21, 1e22,
];

// 10 ^ k, from the table.
fn ten(k: usize) -> f64
    requires { k ≤ 22 }
    ensures { result ≡ whole (10 ^ k) }
{
    TENS[k]
}

// Whether the table has the power.
fn in_range(p: i64) -> bool
    ensures { result ≡ in_range p }
{
    -22 <= p && p <= 22
}

// w × 10 ^ p or w ÷ 10 ^ −p: one operation on exact numbers. Up to 2 ^ 53 each whole number is a double, and the cast is defined there only.
fn value(w: u64, p: i64) -> f64
    requires { (w ≤ 2 ^ 53) × (in_range p ≡ true) }
    ensures { result ≡ value w p }
{
    let d = w as f64;
    if 0 <= p {
        d * ten(p as usize)
    } else {
        d / ten(-p as usize)
    }
}

// The literal's value, if the table has its power of ten; a minus is applied last.
pub fn decimal(w: u64, p: i64, minus: bool) -> Option<f64>
    requires { w ≤ 2 ^ 53 }
    ensures { result ≡ decimal_of w p minus }
{
    if !in_range(p) {
        return None;
    }
    let v = value(w, p);
    Some(if minus { -v } else { v })
}
