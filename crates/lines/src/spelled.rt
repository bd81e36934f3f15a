// What the replay programs share: numbers and bytes that a line spells, and answers that show bytes by a digest and doubles by their bits.
ghost use Rattle.std.specs.Prelude.{◌≡◌, ◌≤◌, ◌<◌, ◌^◌, length, max, false, is_nan, to_bits};
ghost use Rattle.std.specs.Float.{binary64};
ghost use Rattle.arrayvec.specs.ArrayVec.{Extends};
ghost use Rattle.io.specs.Digits.{last_digits};
ghost use Rattle.lines.specs.Written.{HasRoomOf, AddsAtMost};

use arrayvec::ArrayVec;

// A digit's value; 0 for another byte, and for a digit that the base has not.
pub fn digit(b: u8, base: usize) -> usize
    requires { 0 < base }
    ensures { result < base }
{
    let d = match b {
        b'0'..=b'9' => (b - b'0') as usize,
        b'a'..=b'f' => (b - b'a') as usize + 10,
        _ => 0,
    };
    if d < base { d } else { 0 }
}

// The number that up to three hexadecimal digits mean.
fn number(digits: &[u8]) -> usize
    requires { length digits.now ≤ 3 }
    ensures { result < 16 ^ length digits.now }
{
    let mut n = 0;
    for b in digits {
        n = n * 16 + digit(*b, 16);
    }
    n
}

// The number that the first three digits mean, or another where they are missing.
pub fn number_or(digits: &[u8], other: usize) -> usize
    ensures { result ≤ max 4095 other }
{
    match digits.get(..3) {
        Some(three) => number(three),
        None => other,
    }
}

// Each five digits are an offset and the byte to put there.
pub fn change(bytes: &mut [u8], digits: &[u8]) {
    for five in digits.chunks_exact(5) {
        let offset = number(&five[..3]);
        if bytes.len() <= offset {
            return;
        }
        bytes[offset] = number(&five[3..]) as u8;
    }
}

fn digest(bytes: &[u8]) -> u32 {
    let mut h = 0;
    for b in bytes {
        h = (h * 65599 + u64::from(*b)) % 4294967291;
    }
    h as u32
}

// The number in so many hexadecimal digits.
fn put_hex<const N: usize>(out: &mut ArrayVec<u8, N>, n: u64, width: usize)
    requires fits { (0 < width) × (width ≤ 16) × (width < 16 → n < 16 ^ width) }
    requires room { HasRoomOf N width out.old }
    ensures added { Extends out.old (last_digits 16 width n) out.new }
    ensures bound { AddsAtMost width out.old out.new }
{
    let mut digits = [0u8; 16];
    let k = io::hex(n, width, &mut digits);
    crate::put_all(out, &digits[..k]);
}

// A space and the digest.
pub fn put_digest<const N: usize>(out: &mut ArrayVec<u8, N>, bytes: &[u8])
    requires { HasRoomOf N 9 out.old }
    ensures { AddsAtMost 9 out.old out.new }
{
    out.push(b' ');
    put_hex(out, u64::from(digest(bytes)), 8);
}

// A double's bits, or `nan`.
pub fn put_double<const N: usize>(out: &mut ArrayVec<u8, N>, v: f64)
    requires { HasRoomOf N 16 out.old }
    ensures bits { is_nan v ≡ false → Extends out.old (last_digits 16 16 (to_bits binary64 v)) out.new }
    ensures bound { AddsAtMost 16 out.old out.new }
{
    if v.is_nan() {
        return crate::put_all(out, b"nan");
    }
    put_hex(out, v.to_bits(), 16);
}
