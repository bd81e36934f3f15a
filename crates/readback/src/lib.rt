// A filing record read back to its diagram: well laid out, then the smallest.
#![tactic(auto)]

ghost use Rattle.std.specs.Prelude.{not, map, ◌≡◌, ◌+◌, ◌*◌, ◌<◌, ◌≤◌, length, take, drop};
ghost use Rattle.std.specs.Float.{binary64};
ghost use Rattle.std.specs.Float.Ieee.{nan_bits};
ghost use Rattle.cd.specs.Arrays.{padded};
ghost use Rattle.cd.specs.Diagrams.{limit, place, cd_of};
ghost use Rattle.cd.specs.Edges.{edge_of};
ghost use Rattle.cd.specs.Minimal.{Decides};
ghost use Rattle.cd.specs.declared.Node.TheVariants.{Unringed};
ghost use Rattle.filing.specs.Diagrams.{IsNode, IsDiagram};
ghost use Rattle.filing.specs.Readable.{node_at, fraction_at, spelled as the_spelled};
ghost use Rattle.parse.specs.Reading.{Reading, answer};
ghost use Rattle.tables.specs.Tables.{IsPair, IsKept};
ghost use Rattle.readback.specs.ReadBack.{ReadBack};
ghost use Rattle.readback.specs.Spelled.{node, nodes_to, nodes_in, edges_to, edges_in};
ghost use Rattle.readback.specs.Steps.{NodesTo, PairsTo, Shows};

use cd::{Cd, CdError, Edge, LIMIT, Node, PAIRS, Pair, Place};
use records::{NODE, PAIRS_AT, RECORD};

// The W bytes at k.
fn bytes_at<const W: usize>(s: &[u8], k: usize) -> [u8; W]
    requires { k + W ≤ length s.now }
    ensures { result ≡ take W (drop k s.now) }
{
    let mut bytes = [0; W];
    bytes.copy_from_slice(&s[k..k + W]);
    bytes
}

// The value bits of node i.
fn bits_at(s: &[u8; RECORD], i: usize) -> u64
    requires { i < limit }
    ensures { result ≡ (node_at s.now i).bits }
{
    u64::from_be_bytes(bytes_at(s, 2 + NODE * i))
}

// The edge whose numbers the eight bytes at k spell.
fn edge_at(s: &[u8], k: usize) -> Edge
    requires { k + 8 ≤ length s.now }
    ensures { result ≡ edge_of (fraction_at s.now k) }
{
    Edge {
        num: u32::from_be_bytes(bytes_at(s, k)),
        den: u32::from_be_bytes(bytes_at(s, k + 4)),
    }
}

// Whether 64 bits are a double's that is not nan. (`f64::from_bits` asks for what is tested here.)
fn is_number(bits: u64) -> bool
    ensures { result ≡ not (nan_bits binary64 bits) }
{
    bits % 0x8000_0000_0000_0000 <= 0x7ff0_0000_0000_0000
}

// Whether kind and value of node i are a node's.
fn is_node(s: &[u8; RECORD], i: usize) -> bool
    requires { i < limit }
    ensures { Decides (IsNode (node_at s.now i)) result }
{
    let bits = bits_at(s, i);
    match s[1 + NODE * i] {
        1 => bits == 0,
        2 | 3 => is_number(bits),
        _ => false,
    }
}

// Whether the eight bytes at k spell an edge in lowest terms.
fn is_pair(s: &[u8], k: usize) -> bool
    requires { k + 8 ≤ length s.now }
    ensures { Decides (IsPair (fraction_at s.now k)) result }
{
    let edge = edge_at(s, k);
    0 < edge.den && edge.den < edge.num && cd::reduced(edge).den == edge.den
}

fn are_nodes(s: &[u8; RECORD], n: usize) -> bool
    requires { n ≤ limit }
    ensures { Decides (NodesTo s.now n) result }
{
    (0..n).all(|i| is_node(s, i))
}

fn are_pairs(s: &[u8; RECORD], n: usize) -> bool
    requires { n ≤ limit }
    ensures { Decides (PairsTo limit s.now n) result }
{
    (0..(n * n - n) / 2).all(|k| is_pair(s, PAIRS_AT + 8 * k))
}

// Whether count, kinds, values and fractions are a diagram's.
fn is_spelled(s: &[u8; RECORD]) -> bool
    ensures { Decides (IsKept limit (the_spelled limit s.now)) result }
{
    let n = s[0] as usize;
    n <= LIMIT && are_nodes(s, n) && are_pairs(s, n)
}

fn node_at(s: &[u8; RECORD], i: usize) -> Node
    requires { (i < limit) × IsNode (node_at s.now i) }
    ensures { result ≡ node (node_at s.now i) }
{
    let bits = bits_at(s, i);
    match s[1 + NODE * i] {
        1 => Node::Unringed,
        2 => Node::Ringed(f64::from_bits(bits)),
        _ => Node::Snub(f64::from_bits(bits)),
    }
}

fn read_nodes(s: &[u8; RECORD], n: usize) -> [Place; LIMIT]
    requires { (n ≤ limit) × NodesTo s.now n }
    ensures { result ≡ padded (place Unringed) limit (map place (nodes_to s.now n)) }
{
    let mut out = [Place {
        node: Node::Unringed,
    }; LIMIT];
    for i in 0..n {
        out[i].node = node_at(s, i);
    }
    out
}

// The pair places, and how many edges they hold. (The two fields of a diagram that rows of a record fill.)
#[derive(Clone, Copy)]
pub struct Edges {
    pub pairs: [Pair; PAIRS],
    pub count: usize,
}

// The pairs of place j with the places before it, stored after those of the places before j.
fn read_row(s: &[u8; RECORD], j: usize, out: &mut Edges)
    requires { (j < limit) × Shows (edges_to limit s.now j) out.old }
    ensures { Shows (edges_to limit s.now (j + 1)) out.new }
{
    for i in 0..j {
        let edge = edge_at(s, PAIRS_AT + 8 * (j * (j - 1) / 2 + i));
        if !cd::eq_two(edge) {
            out.count += 1;
            out.pairs[cd::pair_place(i, j)] = Pair {
                rank: out.count as u32,
                edge,
            };
        }
    }
}

fn read_edges(s: &[u8; RECORD], n: usize) -> Edges
    requires { n ≤ limit }
    ensures { Shows (edges_to limit s.now n) result }
{
    let none = Pair {
        rank: 0,
        edge: Edge { num: 0, den: 0 },
    };
    let mut out = Edges {
        pairs: [none; PAIRS],
        count: 0,
    };
    for j in 0..n {
        read_row(s, j, &mut out);
    }
    out
}

// The diagram that bytes spell.
fn spelled(s: &[u8; RECORD]) -> Cd
    requires { IsDiagram limit (the_spelled limit s.now) }
    ensures { result ≡ cd_of (nodes_in s.now) (edges_in limit s.now) }
{
    let n = s[0] as usize;
    let nodes = read_nodes(s, n);
    let Edges {
        pairs,
        count: edges,
    } = read_edges(s, n);
    Cd {
        nodes,
        count: n,
        pairs,
        edges,
    }
}

// The diagram that has these bytes for its record.
pub fn read(s: &[u8]) -> Result<Cd, CdError>
    ensures { (x : Reading) × ReadBack limit s.now x × (result ≡ answer x) }
{
    let Ok(bytes) = <&[u8; RECORD]>::try_from(s) else {
        return Err(CdError::RecordLength);
    };
    if !is_spelled(bytes) {
        return Err(CdError::NoDiagram); // for a count, kind, value or fraction
    }
    let cd = spelled(bytes);
    let t = tables::of(cd);
    if !records::is_layout(bytes, &t, search::plain()) {
        return Err(CdError::NoDiagram); // for a filler
    }
    if !search::is_smallest(&t) {
        return Err(CdError::NotSmallest);
    }
    Ok(cd)
}
