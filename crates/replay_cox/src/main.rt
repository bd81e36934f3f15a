// Reads as `cdlist` does, and answers each line with a text's matrix, mirrors, walls, generators or reflections, or with a family's matrix, mirrors or walls,
// each double by its bits. oracle/cox.py has the kinds of lines.
#![tactic(auto)]

ghost use Rattle.std.specs.Prelude.{◌*◌, ◌≤◌, length};
ghost use Rattle.arrayvec.specs.ArrayVec.{array_vec_len};
ghost use Rattle.lines.specs.Written.{HasRoom, HasHalf, AddsAtMost};

use cd::{CdError, LIMIT, SQUARE};
use generator::Generator;
use geometry::Square;
use lines::{Answers, spelled};
use reflections::Reflections;

// Each value after a space.
fn put_values(out: &mut Answers, values: &[f64])
    requires { HasRoom (17 * length values.now) out.old }
    ensures { AddsAtMost (17 * length values.now) out.old out.new }
{
    for v in values {
        out.push(b' ');
        spelled::put_double(out, *v);
    }
}

// The first n rows of the first n columns. (By the lesser of two limits, so that no law of the library is needed; and so below.)
fn put_matrix(out: &mut Answers, m: &[f64; SQUARE], n: usize)
    requires { HasRoom 1377 out.old }
    ensures { AddsAtMost 1377 out.old out.new }
{
    let n = n.min(LIMIT);
    for c in 0..n {
        put_values(out, &m[LIMIT * c..LIMIT * c + n]);
    }
}

// A matrix, or mirrors.
fn put_square(out: &mut Answers, r: Result<Square, CdError>)
    requires { HasRoom 1463 out.old }
    ensures { AddsAtMost 1463 out.old out.new }
{
    lines::put_outcome(out, r.map(|s| [s.count]));
    if let Ok(s) = r {
        put_matrix(out, &s.at, s.count);
    }
}

// The coordinates and the circumradius.
fn put_generated(out: &mut Answers, r: Result<Generator, CdError>)
    requires { HasRoom 256 out.old }
    ensures { AddsAtMost 256 out.old out.new }
{
    lines::put_outcome(out, r.map(|g| [g.count]));
    if let Ok(g) = r {
        put_values(out, &g.at[..g.count.min(LIMIT)]);
        put_values(out, &[g.radius]);
    }
}

// The reflections, mirror by mirror. Nine matrices take more than half the room, so that each is followed by a chance to write them out.
fn put_reflected(rt: &(impl Print + Eprint), out: &mut Answers, r: Result<Reflections, CdError>)
    requires { HasHalf out.old }
    ensures { HasHalf out.new }
{
    lines::put_outcome(out, r.map(|all| [all.count]));
    lines::flush_half(rt, out);
    if let Ok(all) = r {
        for mirror in &all.of[..all.count.min(LIMIT)] {
            put_matrix(out, &mirror.at, all.count);
            lines::flush_half(rt, out);
        }
    }
}

// A size of up to three digits; 0, which no family has, for more.
fn size(digits: &[u8]) -> usize {
    let mut n = 0;
    for b in digits {
        if 100 <= n {
            return 0;
        }
        n = n * 10 + spelled::digit(*b, 10);
    }
    n
}

// The letter and the size of the family that L S names; what is shorter names none.
fn named(s: &[u8]) -> (u8, usize) {
    match s {
        [letter, _, digits @ ..] => (*letter, size(digits)),
        _ => (b' ', 0),
    }
}

// A line without a kind, or of none of these, has an empty answer.
fn line(rt: &(impl Print + Eprint), s: &[u8], out: &mut Answers)
    requires { HasHalf out.old }
    ensures { array_vec_len out.new ≤ 9656 }
{
    if let [kind, _, text @ ..] = s {
        let (letter, size) = named(text);
        match kind {
            b'm' => put_square(out, geometry::matrix(text, true)),
            b'n' => put_square(out, geometry::mirrors(text, true)),
            b'g' => put_generated(out, geometry::generator(text, true)),
            b'w' => put_square(out, geometry::walls(text, true)),
            b't' => put_generated(out, geometry::wall_generator(text, true)),
            b'r' => put_reflected(rt, out, geometry::reflections(text, true)),
            b'M' => put_square(out, geometry::family_matrix(letter, size)),
            b'N' => put_square(out, geometry::family_mirrors(letter, size)),
            b'W' => put_square(out, geometry::family_walls(letter, size)),
            _ => {}
        }
    }
    out.push(b'\n');
}

fn main(rt: HostRuntime) {
    let mut text = [0; 65536];
    lines::answer_lines(&rt, &mut text, |s, out| line(&rt, s, out));
}
