// cox/mod.rs of miratope-core, with cox of its cd.rs: the matrix of a diagram, and the families. A square of doubles is one array, row r of column c at LIMIT × c + r.
#![tactic(auto)]

ghost use Rattle.std.specs.Prelude.{List, map, ◌≡◌, ℕ, ◌<◌, ◌≤◌, Float};
ghost use Rattle.cd.specs.Diagrams.{Stored, limit, cd_of};
ghost use Rattle.cd.specs.declared.Node.{Node};
ghost use Rattle.cox.specs.Shown.{pair_value, entries, cox_of};
ghost use Rattle.cox.specs.Squares.{Square, zeros as the_zeros, flat, flat_square, dot as the_dot};

use cd::{Cd, LIMIT, PAIRS, Pair, SQUARE};

pub mod families; // families.rt: the matrices of A, B, D, E and H

// The matrix of `count` nodes; past them, that of nodes that nothing joins. (An array and a count, since no heap is used.)
#[derive(Clone, Copy)]
pub struct Cox {
    pub at: [f64; SQUARE],
    pub count: usize,
}

pub fn zeros() -> [f64; SQUARE]
    ensures { result ≡ flat_square limit the_zeros }
{
    [0.0; SQUARE]
}

// The square with entry(c, r) in row r of column c.
pub fn square<F: Fn(usize, usize) -> f64>(entry: F) -> [f64; SQUARE]
    requires { (c r : ℕ) → c < limit → r < limit → F.pre entry c r }
    ensures { (m : Square) → ((c r : ℕ) (x : Float) → c < limit → r < limit → F.post entry c r x → x ≡ m c r) → result ≡ flat_square limit m }
{
    let mut at = zeros();
    for c in 0..LIMIT {
        for r in 0..LIMIT {
            at[LIMIT * c + r] = entry(c, r);
        }
    }
    at
}

// What stands for two different nodes, by the place of their pair.
fn pair_value(p: Pair) -> f64
    ensures { result ≡ pair_value p }
{
    if p.rank == 0 {
        2.0
    } else {
        p.edge.num as f64 / p.edge.den as f64
    }
}

// Of all pairs. (With `pairs.map(pair_value)` the matrix took three times as long.)
fn pair_values(pairs: [Pair; PAIRS]) -> [f64; PAIRS]
    ensures { result ≡ map pair_value pairs }
{
    let mut values = [2.0; PAIRS];
    for (k, pair) in pairs.iter().enumerate() {
        values[k] = pair_value(*pair);
    }
    values
}

// An entry of the matrix, by those values.
#[tactic(auto, using(std::proofs::lemmas::Bool::Decides::nat_tests, crate::proofs::Sums::one_literal), unfolding(crate::specs::Shown::entries))]
fn entry(values: &[f64; PAIRS], i: usize, j: usize) -> f64
    requires { (i < limit) × (j < limit) }
    ensures { result ≡ entries values.now i j }
{
    if i == j {
        1.0
    } else {
        values[cd::pair_place(i, j)]
    }
}

// Each fraction is divided once.
pub fn matrix(cd: Cd) -> Cox
    ensures { (ns : List Node) (es : List Stored) → cd ≡ cd_of ns es → result ≡ cox_of ns es }
{
    let values = pair_values(cd.pairs);
    Cox {
        at: square(|c, r| entry(&values, c, r)),
        count: cd.count,
    }
}

// The first k rows of column i.
pub fn column(m: &[f64; SQUARE], i: usize, k: usize) -> &[f64]
    requires { (i < limit) × (k ≤ limit) }
    ensures { (f : Square) → m.now ≡ flat_square limit f → result.now ≡ flat k (f i) }
{
    &m[LIMIT * i..LIMIT * i + k]
}

// The sum of the products, by rising index from 0.0.
pub fn dot(xs: &[f64], ys: &[f64]) -> f64
    ensures { (f g : ℕ → Float) (k : ℕ) → xs.now ≡ flat k f → ys.now ≡ flat k g → result ≡ the_dot f g k }
{
    let mut sum = 0.0;
    for (x, y) in xs.iter().zip(ys) {
        sum += *x * *y;
    }
    sum
}
