// A node or a reference, on slice and cursor.
#![tactic(auto)]

ghost use Rattle.std.specs.Prelude.{◌≡◌, ◌<◌, ◌≤◌, length, drop};
ghost use Rattle.cd.specs.Letters.{letter_of};
ghost use Rattle.node.specs.Nodes.{closing, last_byte, length_node, length_at, reference, letter_at, reference_at, letter_node, node_at};

use cd::{CdError, Node, NodeRef};
use length::Length;

// What was read; each function answers the place after it too.
#[derive(Clone, Copy)]
pub enum NodeRead {
    Added(Node),
    Referred(NodeRef),
}

// The place of the first `)` from `at` on, or the length.
pub fn closing(s: &[u8], at: usize) -> usize
    requires { at ≤ length s.now }
    ensures { (result ≡ closing (drop at s.now) at) × (result ≤ length s.now) × (at ≤ result) }
{
    match s[at..].iter().position(|b| *b == b')') {
        Some(n) => at + n,
        None => s.len(),
    }
}

// The last byte of a literal from `at` to `e`; of an empty one, what stands at its end.
#[tactic(auto, unfolding(crate::specs::Nodes::last_byte))]
pub fn last_byte(at: usize, e: usize) -> usize
    ensures { result ≡ last_byte at e }
{
    if at < e { e - 1 } else { e }
}

// The node of a literal; of an infinite one only where it is wished.
#[tactic(auto, unfolding(crate::specs::Nodes::length_node))]
pub fn length_node(
    l: Length,
    last: usize,
    next: usize,
    wish: bool,
) -> Result<(NodeRead, usize), CdError>
    ensures { result ≡ length_node wish l last next }
{
    match l {
        Length::Value(v) => Ok((NodeRead::Added(Node::Ringed(v)), next)),
        Length::Infinite(v) if wish => Ok((NodeRead::Added(Node::Ringed(v)), next)),
        Length::Infinite(_) => Err(CdError::InfiniteLength { pos: last }),
        Length::NoNumber => Err(CdError::ParseError { pos: last }),
        Length::Nan => Err(CdError::InvalidSymbol { pos: last }),
        Length::Range => Err(CdError::OutOfRange { pos: last }),
    }
}

// The length that starts at `at`, after its `(`.
#[tactic(auto, using(crate::proofs::NodeLaws::length_laws))]
pub fn parse_node(s: &[u8], at: usize, wish: bool) -> Result<(NodeRead, usize), CdError>
    requires { at ≤ length s.now }
    ensures { result ≡ length_at wish (drop at s.now) at }
{
    let e = closing(s, at);
    if e == s.len() {
        return Err(CdError::MismatchedParenthesis { pos: e });
    }
    let l = length::literal(&s[at..e]);
    length_node(l, last_byte(at, e), e + 1, wish)
}

// The reference of a letter's number.
#[tactic(auto, unfolding(crate::specs::Nodes::reference))]
pub fn reference(negative: bool, k: u8) -> NodeRef
    ensures { result ≡ reference negative k }
{
    if negative {
        NodeRef::Negative(k)
    } else {
        NodeRef::Absolute(k)
    }
}

// A reference's letter at `at`.
#[tactic(auto, using(crate::proofs::NodeLaws::letter_laws))]
pub fn read_letter(s: &[u8], at: usize, negative: bool) -> Result<(NodeRead, usize), CdError>
    ensures { result ≡ letter_at (drop at s.now) at negative }
{
    match s.get(at).copied() {
        Some(b @ b'a'..=b'z') => Ok((NodeRead::Referred(reference(negative, b - b'a')), at + 1)),
        Some(_) => Err(CdError::InvalidSymbol { pos: at }),
        None => Err(CdError::UnexpectedEnding { pos: at }),
    }
}

// The reference that starts at `at`, after its `*`.
#[tactic(auto, using(crate::proofs::NodeLaws::reference_laws))]
pub fn read_reference(s: &[u8], at: usize) -> Result<(NodeRead, usize), CdError>
    ensures { result ≡ reference_at (drop at s.now) at }
{
    let negative = s.get(at) == Some(&b'-');
    read_letter(s, at + usize::from(negative), negative)
}

// The node of a letter, at `at`.
#[tactic(auto, unfolding(crate::specs::Nodes::letter_node))]
pub fn letter_node(b: u8, at: usize) -> Result<(NodeRead, usize), CdError>
    requires { at < 4294967296 }
    ensures { result ≡ letter_node (letter_of b) at }
{
    match cd::from_char(b) {
        Some(n) => Ok((NodeRead::Added(n), at + 1)),
        None => Err(CdError::InvalidSymbol { pos: at }),
    }
}

// The node or reference at `at`, where no space stands.
#[tactic(auto, using(crate::proofs::NodeLaws::node_laws))]
pub fn create_node(s: &[u8], at: usize, wish: bool) -> Result<(NodeRead, usize), CdError>
    requires { (at ≤ length s.now) × (length s.now ≤ 255) }
    ensures { result ≡ node_at wish (drop at s.now) at }
{
    if s.len() <= at {
        return Err(CdError::UnexpectedEnding { pos: at });
    }
    match s[at] {
        b'(' => parse_node(s, at + 1, wish),
        b'*' => read_reference(s, at + 1),
        b => letter_node(b, at),
    }
}
