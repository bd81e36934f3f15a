// Ticket K4: the names of the finite groups, their diagrams and orders.
#![tactic(auto)]

ghost use Rattle.std.specs.Prelude.{true, ◌≡◌, ◌*◌, ◌^◌, ◌<◌, ◌≤◌};
ghost use Rattle.cd.specs.Diagrams.{limit};
ghost use Rattle.filing.specs.Factorials.{factorial};
ghost use Rattle.group_names.specs.Names.{is_name, rank as the_rank, entry as the_entry, written as the_written, order as the_order};

use cd::LIMIT;

// A, B and D with their size, I2 with its p.
#[derive(Clone, Copy)]
pub enum Name {
    A(usize),
    B(usize),
    D(usize),
    E6,
    E7,
    E8,
    F4,
    H3,
    H4,
    I2(u32),
}

// A name's letter, and the number behind it: I2 has its p.
#[derive(Clone, Copy)]
pub struct NameParts {
    pub letter: u8,
    pub number: u64,
}

// A component: its lowest node, its name and the group's order.
#[derive(Clone, Copy)]
pub struct Group {
    pub node: usize,
    pub name: Name,
    pub order: u64,
}

// The components by rising lowest node: the first `count` of `at`. (A count beside an array, since no heap is used.)
#[derive(Clone, Copy)]
pub struct Groups {
    pub at: [Group; LIMIT],
    pub count: usize,
}

// ---- the names

#[tactic(auto, unfolding(crate::specs::Names::is_name))]
pub fn is_name(x: Name) -> bool
    ensures { result ≡ is_name x }
{
    match x {
        Name::A(n) => 1 <= n,
        Name::B(n) => 2 <= n,
        Name::D(n) => 4 <= n,
        Name::E6 | Name::E7 | Name::E8 | Name::F4 | Name::H3 | Name::H4 => true,
        Name::I2(p) => 5 <= p,
    }
}

// How many nodes the diagram has.
#[tactic(auto, unfolding(crate::specs::Names::rank))]
pub fn rank(x: Name) -> usize
    ensures { result ≡ the_rank x }
{
    match x {
        Name::A(n) | Name::B(n) | Name::D(n) => n,
        Name::E6 => 6,
        Name::E7 => 7,
        Name::E8 => 8,
        Name::F4 | Name::H4 => 4,
        Name::H3 => 3,
        Name::I2(_) => 2,
    }
}

// The whole number between the nodes i and j, 2 where nothing joins them.
#[tactic(auto, unfolding(crate::specs::Names::entry, cox::specs::Families::made))]
pub fn entry(x: Name, i: usize, j: usize) -> u32
    requires { (i < limit) × (j < limit) }
    ensures { result ≡ the_entry x i j }
{
    let c = cox::families::chain(i, j);
    let b = cox::families::made(0, 1, 2, c, i, j);
    match x {
        Name::A(_) => c,
        Name::B(_) => cox::families::made(0, 1, 4, c, i, j),
        Name::D(_) => cox::families::made(0, 2, 3, b, i, j),
        Name::E6 | Name::E7 | Name::E8 => cox::families::made(0, 3, 3, b, i, j),
        Name::F4 => cox::families::made(1, 2, 4, c, i, j),
        Name::H3 | Name::H4 => cox::families::made(0, 1, 5, c, i, j),
        Name::I2(p) => cox::families::made(0, 1, p, c, i, j),
    }
}

#[tactic(auto, unfolding(crate::specs::Names::written))]
pub fn written(x: Name) -> NameParts
    ensures { result ≡ the_written x }
{
    let (letter, number) = match x {
        Name::A(n) => (b'A', n as u64),
        Name::B(n) => (b'B', n as u64),
        Name::D(n) => (b'D', n as u64),
        Name::E6 => (b'E', 6),
        Name::E7 => (b'E', 7),
        Name::E8 => (b'E', 8),
        Name::F4 => (b'F', 4),
        Name::H3 => (b'H', 3),
        Name::H4 => (b'H', 4),
        Name::I2(p) => (b'I', p as u64),
    };
    NameParts { letter, number }
}

// ---- the orders

// The product of the first n multiples of 1 or of 2; that of 16 fits 64 bits.
#[tactic(auto, using(crate::proofs::Orders::product_none, crate::proofs::Orders::product_more, crate::proofs::Orders::product_fits))]
fn multiples(of: u64, n: usize) -> u64
    requires { (1 ≤ of) × (of ≤ 2) × (n ≤ 16) }
    ensures { result ≡ of ^ n * factorial n }
{
    let mut r = 1;
    for k in 0..n {
        r *= of * (k as u64 + 1);
    }
    r
}

#[tactic(auto, using(crate::proofs::Orders::product_one, crate::proofs::Orders::half_product), unfolding(crate::specs::Names::order, crate::specs::Names::rank, crate::specs::Names::is_name))]
pub fn order(x: Name) -> u64
    requires { (is_name x ≡ true) × (the_rank x ≤ 15) }
    ensures { result ≡ the_order x }
{
    match x {
        Name::A(n) => multiples(1, n + 1),
        Name::B(n) => multiples(2, n),
        Name::D(n) => multiples(2, n) / 2,
        Name::E6 => 51840,
        Name::E7 => 2903040,
        Name::E8 => 696729600,
        Name::F4 => 1152,
        Name::H3 => 120,
        Name::H4 => 14400,
        Name::I2(p) => 2 * (p as u64),
    }
}
