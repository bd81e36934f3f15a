// The tables of a diagram: what its filing record is made of, for the search to look up.
#![tactic(auto)]

ghost use Rattle.std.specs.Prelude.{List, ◌≡◌, ◌≤◌};
ghost use Rattle.cd.specs.Diagrams.{Stored, limit, cd_of};
ghost use Rattle.cd.specs.declared.Node.{Node as ANode};
ghost use Rattle.tables.specs.Diagrams.{filed, diagram};
ghost use Rattle.tables.specs.Tables.{IsNumber, Numbers, IsKept, pair_number, PairTable, entries, Holds};

use cd::{Cd, LIMIT, Node, Pair, SQUARE};
pub use entries::{Tables, pair_at};
use std::array;

mod entries;

// The number that the eight bytes of a pair spell, whose order is the byte order; 2 and 1 if nothing joins the two.
#[tactic(auto, using(crate::proofs::Held::number_of_nothing, crate::proofs::Held::number_of_edge), unfolding(crate::specs::Tables::spelt))]
fn pair_number(p: Pair) -> u64
    ensures { result ≡ pair_number p }
{
    let e = p.edge;
    if e.den == 0 {
        return 0x2_0000_0001;
    }
    e.num as u64 * 0x1_0000_0000 + e.den as u64
}

// A node's kind, as a byte of the record.
#[tactic(auto, unfolding(crate::specs::Diagrams::filed))]
pub fn kind(n: Node) -> u8
    ensures { result ≡ (filed n).kind }
{
    match n {
        Node::Unringed => 1,
        Node::Ringed(_) => 2,
        Node::Snub(_) => 3,
    }
}

// The 64 bits of a node's value.
#[tactic(auto, unfolding(crate::specs::Diagrams::filed))]
pub fn bits(n: Node) -> u64
    requires { IsNumber n }
    ensures { result ≡ (filed n).bits }
{
    match n {
        Node::Unringed => 0,
        Node::Ringed(v) | Node::Snub(v) => v.to_bits(),
    }
}

// For the nodes u and v, at LIMIT × u + v, the number of their pair; only the nodes' rows are filled.
pub fn pairs_of(cd: Cd) -> [u64; SQUARE]
    requires { cd.count ≤ limit }
    ensures { PairTable limit cd.count cd.pairs result }
{
    let mut out = [0; SQUARE];
    for k in 0..LIMIT * cd.count {
        out[k] = pair_number(cd.pairs[cd::pair_place(k / LIMIT, k % LIMIT)]);
    }
    out
}

// Edges are in lowest terms: nothing is divided here.
pub fn of(cd: Cd) -> Tables
    requires { Numbers cd.nodes × (cd.count ≤ limit) }
    ensures { (result.count ≡ cd.count) × ((ns : List ANode) (es : List Stored) → cd ≡ cd_of ns es → IsKept limit (diagram ns es) → Holds limit (entries result) (diagram ns es)) }
{
    Tables {
        count: cd.count,
        kinds: array::from_fn(|v| kind(cd.nodes[v].node)),
        bits: array::from_fn(|v| bits(cd.nodes[v].node)),
        pairs: pairs_of(cd),
    }
}
