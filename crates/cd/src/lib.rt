// cd.rs of miratope-core: nodes, edges, references, refusals and diagrams.
#![tactic(auto)]

ghost use Rattle.std.specs.Prelude.{[], ◌∷◌, ◌≡◌, ◌<◌, ◌≤◌, take};
ghost use Rattle.cd.specs.Arrays.{padded};
ghost use Rattle.cd.specs.Letters.{letter_of};
ghost use Rattle.filing.specs.Fractions.{gcd as the_gcd};
ghost use Rattle.cd.specs.Edges.{is_edge, is_two, reduced as the_reduced};
ghost use Rattle.cd.specs.References.{index_of, ends_of};
ghost use Rattle.cd.specs.Refusals.{number_of};
ghost use Rattle.cd.specs.Diagrams.{limit, pair_limit, place_of};

// How many nodes a diagram has at most, and how many pairs, loops included; how many if each two nodes count in both orders.
pub const LIMIT: usize = 9;

pub const PAIRS: usize = 45;

pub const SQUARE: usize = 81;

// Compared by match and by bits.
#[derive(Clone, Copy)]
pub enum Node {
    Unringed,
    Ringed(f64),
    Snub(f64),
}

#[derive(Clone, Copy)]
pub struct Edge {
    pub num: u32,
    pub den: u32,
}

// An index, or an offset from the end.
#[derive(Clone, Copy)]
pub enum NodeRef {
    Absolute(u8),
    Negative(u8),
}

#[derive(Clone, Copy)]
pub struct EdgeRef {
    pub first: NodeRef,
    pub other: NodeRef,
    pub edge: Edge,
}

// What a text, a buffer, a record, a file, mirrors, a generator or a family is refused with; document 01's numbers are `number_of` in specs/Refusals.antt.
#[derive(Clone, Copy)]
pub enum CdError {
    TooLong { pos: usize },
    NotAscii { pos: usize },
    MismatchedParenthesis { pos: usize },
    UnexpectedEnding { pos: usize },
    ParseError { pos: usize },
    InvalidSymbol { pos: usize },
    InvalidEdge { num: u32, den: u32, pos: usize },
    RepeatEdge { a: usize, b: usize },
    OutOfRange { pos: usize },
    TooManyNodes { pos: usize },
    MissingNode { edge: usize },
    ShortBuffer,
    RecordLength,
    NoDiagram,
    Crowded { column: usize },
    Infinite { node: usize },
    NoFamily,
    ShelfLength,
    ShelfPlace { place: usize },
    OnShelf { place: usize },
    NoName { node: usize },
    NotSmallest,
    InfiniteLength { pos: usize },
}

// A few numbers: the first `count` of `at`. (A count beside an array, since no heap is used and C is lent both.)
#[derive(Clone, Copy)]
pub struct Numbers {
    pub at: [usize; 4],
    pub count: usize,
}

// A refusal's number in document 01 and its fields, in the order given there; zeros past them.
#[tactic(auto, unfolding(crate::specs::Refusals::number_of, crate::specs::Arrays::padded))]
pub fn figures(e: CdError) -> Numbers
    ensures { (take result.count result.at ≡ number_of e) × (result.count ≤ 4) × (result.at ≡ padded 0 4 (number_of e)) }
{
    let (at, count) = match e {
        CdError::TooLong { pos } => ([1, pos, 0, 0], 2),
        CdError::NotAscii { pos } => ([2, pos, 0, 0], 2),
        CdError::MismatchedParenthesis { pos } => ([3, pos, 0, 0], 2),
        CdError::UnexpectedEnding { pos } => ([4, pos, 0, 0], 2),
        CdError::ParseError { pos } => ([5, pos, 0, 0], 2),
        CdError::InvalidSymbol { pos } => ([6, pos, 0, 0], 2),
        CdError::InvalidEdge { num, den, pos } => ([7, num as usize, den as usize, pos], 4),
        CdError::RepeatEdge { a, b } => ([8, a, b, 0], 3),
        CdError::OutOfRange { pos } => ([9, pos, 0, 0], 2),
        CdError::TooManyNodes { pos } => ([10, pos, 0, 0], 2),
        CdError::MissingNode { edge } => ([11, edge, 0, 0], 2),
        CdError::ShortBuffer => ([12, 0, 0, 0], 1),
        CdError::RecordLength => ([13, 0, 0, 0], 1),
        CdError::NoDiagram => ([14, 0, 0, 0], 1),
        CdError::Crowded { column } => ([15, column, 0, 0], 2),
        CdError::Infinite { node } => ([16, node, 0, 0], 2),
        CdError::NoFamily => ([17, 0, 0, 0], 1),
        CdError::ShelfLength => ([18, 0, 0, 0], 1),
        CdError::ShelfPlace { place } => ([19, place, 0, 0], 2),
        CdError::OnShelf { place } => ([20, place, 0, 0], 2),
        CdError::NoName { node } => ([21, node, 0, 0], 2),
        CdError::NotSmallest => ([22, 0, 0, 0], 1),
        CdError::InfiniteLength { pos } => ([23, pos, 0, 0], 2),
    };
    Numbers { at, count }
}

#[derive(Clone, Copy)]
pub struct Place {
    pub node: Node,
}

// What joins two nodes, or a node to itself: nothing, or the edge that was stored as the rank-th, from 1.
// (No padding, and all zero where nothing is stored: such places are filled and copied as plain memory.)
#[derive(Clone, Copy)]
pub struct Pair {
    pub rank: u32,
    pub edge: Edge,
}

// A diagram: its nodes in the order read, and a place for each pair, loops included. (Arrays and counts, since no heap is used.)
#[derive(Clone, Copy)]
pub struct Cd {
    pub nodes: [Place; LIMIT],
    pub count: usize,
    pub pairs: [Pair; PAIRS],
    pub edges: usize,
}

// The root of R2 + 2.
const ROOT: f64 = 1.8477590650225735;

// The node that a letter stands for, if it does.
#[tactic(auto, unfolding(crate::specs::Letters::letter_of, crate::specs::Letters::letters, crate::specs::Letters::find))]
pub fn from_char(c: u8) -> Option<Node>
    ensures { result ≡ letter_of c }
{
    let length = match c {
        b'o' => return Some(Node::Unringed),
        b's' => return Some(Node::Snub(1.0)),
        b'v' => (float::constants::SQRT_5 - 1.0) / 2.0,
        b'x' => 1.0,
        b'q' => float::constants::SQRT_2,
        b'f' => (float::constants::SQRT_5 + 1.0) / 2.0,
        b'h' => float::constants::SQRT_3,
        b'k' => ROOT,
        b'u' => 2.0,
        b'w' => float::constants::SQRT_2 + 1.0,
        b'F' => (float::constants::SQRT_5 + 3.0) / 2.0,
        b'e' => float::constants::SQRT_3 + 1.0,
        b'Q' => float::constants::SQRT_2 * 2.0,
        b'd' => 3.0,
        b'V' => float::constants::SQRT_5 + 1.0,
        b'U' => float::constants::SQRT_2 + 2.0,
        b'A' => (float::constants::SQRT_5 + 1.0) / 4.0 + 1.0,
        b'X' => float::constants::SQRT_2 * 2.0 + 1.0,
        b'B' => float::constants::SQRT_5 + 2.0,
        _ => return None,
    };
    Some(Node::Ringed(length))
}

// Whether two numbers are an edge.
#[tactic(auto, unfolding(crate::specs::Edges::is_edge))]
pub fn is_edge(num: u32, den: u32) -> bool
    ensures { result ≡ is_edge num den }
{
    1 < num && den != 0 && den < num
}

// Whether an edge is worth 2, taken without wrapping.
#[tactic(auto, unfolding(crate::specs::Edges::is_two))]
pub fn eq_two(e: Edge) -> bool
    ensures { result ≡ is_two e }
{
    u64::from(e.num) == 2 * u64::from(e.den)
}

// The greatest common divisor, by Euclid's algorithm, which a remainder of 1 ends too.
fn gcd(a: u32, b: u32) -> u32
    ensures { result ≡ the_gcd a b }
{
    let (mut x, mut y) = (a, b);
    while 1 < y {
        (x, y) = (y, x % y);
    }
    if y == 1 { 1 } else { x }
}

// The edge in lowest terms. (Most edges are whole numbers, and most fractions have a remainder of 0 or 1: no loop for these.)
pub fn reduced(e: Edge) -> Edge
    requires { 0 < e.den }
    ensures { result ≡ the_reduced e }
{
    match e.num % e.den {
        0 => Edge {
            num: e.num / e.den,
            den: 1,
        },
        1 => e,
        rest => {
            let g = gcd(e.den, rest);
            Edge {
                num: e.num / g,
                den: e.den / g,
            }
        }
    }
}

// The node that a reference means, of len nodes, if there is one.
#[tactic(auto, unfolding(crate::specs::References::index_of))]
pub fn index(r: NodeRef, len: usize) -> Option<usize>
    ensures { result ≡ index_of r len }
{
    let (NodeRef::Absolute(k) | NodeRef::Negative(k)) = r;
    let k = usize::from(k);
    if len <= k {
        return None;
    }
    match r {
        NodeRef::Absolute(_) => Some(k),
        NodeRef::Negative(_) => Some(len - 1 - k),
    }
}

// What is to be done with an edge that waits. (Three cases with names of their own: an option of a result would be no plainer.)
#[derive(Clone, Copy)]
pub enum Ends {
    // It is worth 2, and dropped unseen.
    Dropped,
    Missing,
    Both(usize, usize),
}

// The nodes that an edge joins, of len.
#[tactic(auto, unfolding(crate::specs::References::ends_of, crate::specs::References::both_of))]
pub fn indices(e: EdgeRef, len: usize) -> Ends
    ensures { result ≡ ends_of e len }
{
    if eq_two(e.edge) {
        return Ends::Dropped;
    }
    let Some(a) = index(e.first, len) else {
        return Ends::Missing;
    };
    let Some(b) = index(e.other, len) else {
        return Ends::Missing;
    };
    Ends::Both(a, b)
}

// The place of a pair, loops included.
pub fn pair_place(a: usize, b: usize) -> usize
    requires { (a < limit) × (b < limit) }
    ensures { (result ≡ place_of a b) × (result < pair_limit) }
{
    if a < b {
        b * (b + 1) / 2 + a
    } else {
        a * (a + 1) / 2 + b
    }
}
