// A length in parentheses: the bytes between them. (parse.rs of miratope-core calls Rust's own f64 parsing here.)
#![tactic(auto)]

ghost use Rattle.std.specs.Prelude.{false, ◌≡◌, ◌<◌, ◌≤◌, ◌^◌, length, drop, IfOk};
ghost use Rattle.std.specs.Float.{inf};
ghost use Rattle.float.specs.Decimal.{signed};
ghost use Rattle.length.specs.Literals.{power, judged, exponent, decimal, fold, is_word, unsigned, literal_of};
ghost use Rattle.length.specs.Kept.{Took, Signs, kept};

// What a literal is. (Five kinds, of which each has a refusal or a node of its own: a result of some would be no plainer.)
#[derive(Clone, Copy)]
pub enum Length {
    Value(f64),
    Infinite(f64),
    NoNumber,
    Nan,
    Range,
}

// A run of digits: its number on top of an earlier one, up to a bound, and the place after it.
#[derive(Clone, Copy)]
pub struct Digits {
    pub value: u64,
    pub next: usize,
}

pub fn take_digits(t: &[u8], at: usize, before: u64, most: u64) -> Digits
    requires { (at ≤ length t.now) × (before ≤ most) × (0 < most) × (most ≤ 1000000000000000) }
    ensures { Took t.now at before most result }
{
    let mut value = before;
    for i in at..t.len() {
        if !scan::is_digit(t[i]) {
            return Digits { value, next: i };
        }
        value = scan::grown(value, t[i], most);
    }
    Digits {
        value,
        next: t.len(),
    }
}

// A letter in the lower case; any other byte as it is.
#[tactic(auto, unfolding(crate::specs::Literals::fold, scan::specs::Bytes::within))]
pub fn fold(b: u8) -> u8
    ensures { result ≡ fold b }
{
    b.to_ascii_lowercase()
}

// Whether the bytes from `at` to the end are the word, in any mixture of case.
pub fn is_word(t: &[u8], at: usize, word: &[u8]) -> bool
    requires { at ≤ length t.now }
    ensures { result ≡ is_word (drop at t.now) word.now }
{
    let rest = &t[at..];
    rest.len() == word.len() && rest.iter().zip(word).all(|(b, w)| fold(*b) == *w)
}

#[derive(Clone, Copy)]
pub struct Sign {
    pub minus: bool,
    pub next: usize,
}

// An optional sign at `at`.
#[tactic(auto, using(crate::proofs::Signs::sign_laws))]
pub fn take_sign(t: &[u8], at: usize) -> Sign
    requires { at ≤ length t.now }
    ensures { Signs t.now at result }
{
    let (minus, next) = match t.get(at) {
        Some(b'+') => (false, at + 1),
        Some(b'-') => (true, at + 1),
        _ => (false, at),
    };
    Sign { minus, next }
}

// An exponent: its sign, its number up to 1000 and its count of digits.
#[derive(Clone, Copy)]
pub struct Exponent {
    pub minus: bool,
    pub value: u64,
    pub count: usize,
}

// What is read where no exponent begins. ("A missing exponent is 0.")
const NO_EXPONENT: Exponent = Exponent {
    minus: false,
    value: 0,
    count: 0,
};

// The exponent that follows a number's digits, if one or nothing follows them; else the sign, the number and the count of what does follow.
#[tactic(auto, using(crate::proofs::Exponents::exponent_laws))]
pub fn take_exponent(t: &[u8], at: usize) -> Result<Exponent, Exponent>
    requires { at ≤ length t.now }
    ensures { result ≡ kept (exponent (drop at t.now)) }
{
    match t.get(at) {
        Some(b'e' | b'E') => {
            let g = take_sign(t, at + 1);
            let d = take_digits(t, g.next, 0, 1000);
            let x = Exponent {
                minus: g.minus,
                value: d.value,
                count: d.next - g.next,
            };
            if g.next < d.next && d.next == t.len() {
                Ok(x)
            } else {
                Err(x)
            }
        }
        Some(_) => Err(NO_EXPONENT),
        None => Ok(NO_EXPONENT),
    }
}

// The exponent minus the count of digits after the point.
#[tactic(auto, unfolding(crate::specs::Literals::power))]
pub fn power(minus: bool, e: u64, f: usize) -> i64
    requires { (e ≤ 1000) × (f ≤ 1000) }
    ensures { result ≡ power minus e f }
{
    let x = e as i64;
    let y = f as i64;
    if minus { -x - y } else { x - y }
}

// The number whose digits are w, n of them, f after the point, with what stands for an exponent, if that is one.
#[tactic(auto, unfolding(crate::specs::Literals::judged, crate::specs::Literals::length_of))]
pub fn judged(w: u64, n: usize, f: usize, x: Result<Exponent, Exponent>, minus: bool) -> Length
    requires { (w ≤ 2 ^ 53) × (f ≤ n) × IfOk x (λ x. x.value ≤ 1000) }
    ensures { result ≡ judged minus n w f x }
{
    let Ok(x) = x else {
        return Length::NoNumber;
    };
    if n == 0 {
        return Length::NoNumber;
    }
    if 15 < n || 3 < x.count {
        return Length::Range;
    }
    match float::decimal::decimal(w, power(x.minus, x.value, f), minus) {
        Some(v) => Length::Value(v),
        None => Length::Range,
    }
}

// The bound up to which a number's digits are kept: 15 digits stay below it, and more are refused whatever their number.
const MOST: u64 = 1_000_000_000_000_000;

// Digits with at most one point, at least one digit, and an exponent, from `at` on.
#[tactic(auto, using(crate::proofs::Decimals::decimal_laws))]
pub fn decimal(t: &[u8], at: usize, minus: bool) -> Length
    requires { at ≤ length t.now }
    ensures { result ≡ decimal minus (drop at t.now) }
{
    let a = take_digits(t, at, 0, MOST);
    let i = a.next;
    let whole = i - at;
    if i < t.len() && t[i] == b'.' {
        let b = take_digits(t, i + 1, a.value, MOST);
        let f = b.next - (i + 1);
        judged(b.value, whole + f, f, take_exponent(t, b.next), minus)
    } else {
        judged(a.value, whole, 0, take_exponent(t, i), minus)
    }
}

// The infinity of a sign.
pub fn infinity(minus: bool) -> f64
    ensures { result ≡ signed minus (inf false) }
{
    if minus {
        f64::NEG_INFINITY
    } else {
        f64::INFINITY
    }
}

// What follows the sign, at `at`.
#[tactic(auto, unfolding(crate::specs::Literals::unsigned, scan::specs::Ascii::ascii))]
pub fn unsigned(t: &[u8], at: usize, minus: bool) -> Length
    requires { at ≤ length t.now }
    ensures { result ≡ unsigned minus (drop at t.now) }
{
    if is_word(t, at, b"inf") || is_word(t, at, b"infinity") {
        return Length::Infinite(infinity(minus));
    }
    if is_word(t, at, b"nan") {
        return Length::Nan;
    }
    decimal(t, at, minus)
}

#[tactic(auto, unfolding(crate::specs::Literals::literal_of))]
pub fn literal(t: &[u8]) -> Length
    ensures { result ≡ literal_of t.now }
{
    let g = take_sign(t, 0);
    unsigned(t, g.next, g.minus)
}
