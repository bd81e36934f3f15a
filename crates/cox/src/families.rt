// The matrices of the families A, B, D, E and H.
ghost use Rattle.std.specs.Prelude.{◌≡◌, ◌<◌};
ghost use Rattle.cd.specs.Diagrams.{limit};
ghost use Rattle.cox.specs.Families.{is_entry, chain as the_chain, family as the_family, is_family};
ghost use Rattle.cox.specs.Shown.{family_of};
ghost use Rattle.float.specs.Pick.{pick};

use crate::Cox;
use cd::LIMIT;

// Whether the letter and the size are a family's.
#[tactic(auto, using(std::proofs::lemmas::Bool::Decides::nat_tests), unfolding(crate::specs::Families::is_family))]
pub fn is_family(letter: u8, size: usize) -> bool
    ensures { result ≡ is_family limit letter size }
{
    size <= LIMIT
        && match letter {
            b'A' => 1 <= size,
            b'B' | b'H' => 2 <= size,
            b'D' => 3 <= size,
            b'E' => 4 <= size,
            _ => false,
        }
}

// Whether i, j is the entry a, b or the mirrored one.
#[tactic(auto, using(std::proofs::lemmas::Bool::Decides::nat_tests), unfolding(crate::specs::Families::is_entry))]
fn is_entry(a: usize, b: usize, i: usize, j: usize) -> bool
    ensures { result ≡ is_entry a b i j }
{
    (i == a && j == b) || (i == b && j == a)
}

// A chain of 3s.
#[tactic(auto, using(std::proofs::lemmas::Bool::Decides::nat_tests), unfolding(crate::specs::Families::chain))]
pub fn chain(i: usize, j: usize) -> u32
    requires { (i < limit) × (j < limit) }
    ensures { result ≡ the_chain i j }
{
    if i == j {
        1
    } else if i + 1 == j || j + 1 == i {
        3
    } else {
        2
    }
}

// The entry x, or v at a, b.
#[tactic(auto, using(std::proofs::lemmas::Bool::Decides::nat_tests))]
pub fn made(a: usize, b: usize, v: u32, x: u32, i: usize, j: usize) -> u32
    ensures { result ≡ pick (is_entry a b i j) v x }
{
    if is_entry(a, b, i, j) { v } else { x }
}

#[tactic(auto, using(std::proofs::lemmas::Bool::Decides::nat_tests), unfolding(crate::specs::Families::made, crate::specs::Families::family))]
fn family(letter: u8, i: usize, j: usize) -> u32
    requires { (i < limit) × (j < limit) }
    ensures { result ≡ the_family letter i j }
{
    let x = chain(i, j);
    match letter {
        b'B' => made(0, 1, 4, x, i, j),
        b'H' => made(0, 1, 5, x, i, j),
        b'D' => made(0, 2, 3, made(0, 1, 2, x, i, j), i, j),
        b'E' => made(0, 3, 3, made(0, 1, 2, x, i, j), i, j),
        _ => x,
    }
}

// The matrix of a family; past the size it goes on as a longer one of its letter.
pub fn family_matrix(letter: u8, size: usize) -> Cox
    ensures { result ≡ family_of letter size }
{
    Cox {
        at: crate::square(|c, r| family(letter, c, r) as f64),
        count: size,
    }
}
