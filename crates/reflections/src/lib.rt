// The `gens` of `gen_iter`: for each mirror the reflection in it.
#![tactic(auto)]

ghost use Rattle.std.specs.Prelude.{◌≡◌, ◌<◌, ◌≤◌};
ghost use Rattle.cd.specs.Diagrams.{limit};
ghost use Rattle.reflections.specs.Reflections.{unit as the_unit, reflection as the_reflection};
ghost use Rattle.reflections.specs.Shown.{blank, reflections_of};
ghost use Rattle.cox.specs.Squares.{Square, flat_square};

use cd::{LIMIT, SQUARE};

#[derive(Clone, Copy)]
pub struct Matrix {
    pub at: [f64; SQUARE],
}

// One matrix for each of `count` mirrors. (An array and a count, since no heap is used.)
#[derive(Clone, Copy)]
pub struct Reflections {
    pub of: [Matrix; LIMIT],
    pub count: usize,
}

#[tactic(auto, using(std::proofs::lemmas::Bool::Decides::nat_tests, cox::proofs::Sums::zero_literal, cox::proofs::Sums::one_literal), unfolding(crate::specs::Reflections::unit))]
fn unit(c: usize, r: usize) -> f64
    ensures { result ≡ the_unit c r }
{
    if r == c { 1.0 } else { 0.0 }
}

// The reflection in the mirror i of n, by the unit columns.
fn reflection(units: &[f64; SQUARE], m: &[f64; SQUARE], i: usize, n: usize) -> [f64; SQUARE]
    requires { (i < limit) × (n ≤ limit) }
    ensures { (f : Square) → units.now ≡ flat_square limit the_unit → m.now ≡ flat_square limit f → result ≡ flat_square limit (the_reflection (f i) n) }
{
    let mirror = cox::column(m, i, n);
    let square = cox::dot(mirror, mirror);
    let factor = |c| 2.0 * cox::dot(cox::column(units, c, n), mirror) / square;
    let factors: [f64; LIMIT] = std::array::from_fn(factor);
    cox::square(|c, r| unit(c, r) - m[LIMIT * i + r] * factors[c])
}

impl Reflections {
    // Of no mirror: zeros.
    pub fn new() -> Self
        ensures { (result.count ≡ 0) × (result.of ≡ blank) }
    {
        Reflections {
            of: [Matrix { at: cox::zeros() }; LIMIT],
            count: 0,
        }
    }

    // Those in n mirrors. (In place: made by value they were copied once more, and the call for C took 18,280 bytes of stack.)
    pub fn fill(&mut self, m: &[f64; SQUARE], n: usize)
        requires { (n ≤ limit) × (self.old.of ≡ blank) }
        ensures { (f : Square) → m.now ≡ flat_square limit f → self.new ≡ reflections_of n f }
    {
        let units = cox::square(unit);
        self.count = n;
        for i in 0..n {
            self.of[i].at = reflection(&units, m, i, n);
        }
    }
}

pub fn of(m: &[f64; SQUARE], n: usize) -> Reflections
    requires { n ≤ limit }
    ensures { (f : Square) → m.now ≡ flat_square limit f → result ≡ reflections_of n f }
{
    let mut all = Reflections::new();
    all.fill(m, n);
    all
}
