// `Cd::generator`: the point that the mirrors and the nodes' values give, as the Rust computes it; and over walls the point at half a node's value from its wall.
#![tactic(auto)]

ghost use Rattle.std.specs.Prelude.{List, ◌≡◌, ℕ, ◌<◌, ◌≤◌, position, take, Float};
ghost use Rattle.cd.specs.Diagrams.{Stored, limit, cd_of};
ghost use Rattle.cd.specs.declared.Node.{Node as ANode};
ghost use Rattle.generator.specs.Generator.{value as the_value, values as the_values, solve as the_solve, is_infinite};
ghost use Rattle.generator.specs.Shown.{generator_of, lost};
ghost use Rattle.generator.specs.TrueDistances.{restᶠ, placeᶠ, coordinates as the_coordinates};
ghost use Rattle.cox.specs.Squares.{Square, flat, flat_square};

use cd::{Cd, LIMIT, Node, SQUARE};

// It carries its coordinates, the first `count`, and its circumradius. (An array, a count and the radius, as document 01 has it.)
#[derive(Clone, Copy)]
pub struct Generator {
    pub at: [f64; LIMIT],
    pub count: usize,
    pub radius: f64,
}

#[tactic(auto, using(cox::proofs::Sums::zero_literal), unfolding(crate::specs::Generator::value))]
fn value(n: Node) -> f64
    ensures { result ≡ the_value n }
{
    match n {
        Node::Unringed => 0.0,
        Node::Ringed(v) | Node::Snub(v) => v,
    }
}

pub fn values(cd: Cd) -> [f64; LIMIT]
    ensures { (ns : List ANode) (es : List Stored) → cd ≡ cd_of ns es → result ≡ flat limit (the_values ns) }
{
    cd.nodes.map(|place| value(place.node))
}

fn is_infinite(v: f64) -> bool
    ensures { result ≡ is_infinite v }
{
    v.is_infinite()
}

// The first of the n nodes whose value is infinite.
pub fn first_infinite(values: [f64; LIMIT], n: usize) -> Option<usize>
    requires { n ≤ limit }
    ensures { result ≡ position is_infinite (take n values) }
{
    values[..n].iter().position(|v| is_infinite(*v))
}

// Each b(r), r < i, loses v × row r of column i.
fn lose(m: &[f64; SQUARE], b: &mut [f64; LIMIT], i: usize, v: f64)
    requires { i < limit }
    ensures { (f : Square) (c : ℕ → Float) → m.now ≡ flat_square limit f → b.old ≡ flat limit c → b.new ≡ flat limit (lost f i v c i) }
{
    for r in 0..i {
        b[r] -= v * m[LIMIT * i + r];
    }
}

// The triangular system, from the last row to the first.
fn solve(m: &[f64; SQUARE], values: [f64; LIMIT], n: usize) -> [f64; LIMIT]
    requires { n ≤ limit }
    ensures { (f : Square) (c : ℕ → Float) → m.now ≡ flat_square limit f → values ≡ flat limit c → result ≡ flat limit (the_solve f n c) }
{
    let mut b = values;
    for i in (0..n).rev() {
        let v = b[i] / m[LIMIT * i + i];
        b[i] = v;
        lose(m, &mut b, i, v);
    }
    b
}

// Half the value of node i, less each coordinate before i times its row of column i.
fn rest(m: &[f64; SQUARE], b: &[f64; LIMIT], i: usize) -> f64
    requires { i < limit }
    ensures { (f : Square) (c : ℕ → Float) → m.now ≡ flat_square limit f → b.now ≡ flat limit c → result ≡ restᶠ f c i i }
{
    let mut rest = b[i] / 2.0;
    for k in 0..i {
        rest -= b[k] * m[LIMIT * i + k];
    }
    rest
}

// The triangular system of the walls, from the first row to the last.
fn place(m: &[f64; SQUARE], values: [f64; LIMIT], n: usize) -> [f64; LIMIT]
    requires { n ≤ limit }
    ensures { (f : Square) (c : ℕ → Float) → m.now ≡ flat_square limit f → values ≡ flat limit c → result ≡ flat limit (placeᶠ f n c) }
{
    let mut b = values;
    for i in 0..n {
        b[i] = rest(m, &b, i) / m[LIMIT * i + i];
    }
    b
}

// The coordinates over the Rust's mirrors, or over walls. (One choice of two calls: a closure in the flag's place is no plainer.)
#[tactic(auto, unfolding(crate::specs::TrueDistances::coordinates))]
fn coordinates(walls: bool, m: &[f64; SQUARE], values: [f64; LIMIT], n: usize) -> [f64; LIMIT]
    requires { n ≤ limit }
    ensures { (f : Square) (c : ℕ → Float) → m.now ≡ flat_square limit f → values ≡ flat limit c → result ≡ flat limit (the_coordinates walls f n c) }
{
    if walls {
        place(m, values, n)
    } else {
        solve(m, values, n)
    }
}

pub fn of(walls: bool, m: &[f64; SQUARE], values: [f64; LIMIT], n: usize) -> Generator
    requires { n ≤ limit }
    ensures { (f : Square) (c : ℕ → Float) → m.now ≡ flat_square limit f → values ≡ flat limit c → result ≡ generator_of n (the_coordinates walls f n c) }
{
    let at = coordinates(walls, m, values, n);
    let squares = cox::dot(&at[..n], &at[..n]);
    Generator {
        at,
        count: n,
        radius: float::root::fsqrt(squares),
    }
}
