// parse.rs of miratope-core: a text read into a diagram.
#![tactic(auto)]

ghost use Rattle.std.specs.Prelude.{◌≡◌, ◌≤◌, length};
ghost use Rattle.parse.specs.Text.{text_from};
ghost use Rattle.parse.specs.Reading.{joined, kept, answer};

use cd::{Cd, CdError, Edge, EdgeRef, Ends, LIMIT, Node, NodeRef, PAIRS, Pair, Place};
use node::NodeRead;

// Edges wait here. A turn that adds one reads two bytes, so 128 places do for 255. (An array with a count, as document 01 has it.)
#[derive(Clone, Copy)]
pub struct Queue {
    pub at: [EdgeRef; 128],
    pub count: usize,
}

// The text from `start` on, with the wish for infinite lengths or without it: a node, then, while bytes remain, an optional edge and a node; then the queue joined in order. (One
// function, since nodes and queue are locals that are stored in place: to hand them on copies them, a quarter of a short text's time.)
pub fn read_text(s: &[u8], start: usize, wish: bool) -> Result<Cd, CdError>
    requires { (start ≤ length s.now) × (length s.now ≤ 255) }
    ensures { result ≡ answer (kept (joined (text_from wish s.now start))) }
{
    let none = Edge { num: 0, den: 0 };
    let first = NodeRef::Absolute(0);
    let blank = EdgeRef {
        first,
        other: first,
        edge: none,
    };
    let mut nodes = [Place {
        node: Node::Unringed,
    }; LIMIT];
    let mut count = 0;
    let mut queue = Queue {
        at: [blank; 128],
        count: 0,
    };
    let mut at = start;
    let mut prev = first;
    // The edge that was read last, if one was.
    let mut edge = None;
    loop {
        let i = scan::skip_whitespace(s, at);
        let (read, next) = node::create_node(s, i, wish)?;
        let this = match read {
            NodeRead::Referred(r) => r,
            NodeRead::Added(n) => {
                if LIMIT <= count {
                    return Err(CdError::TooManyNodes { pos: i });
                }
                let this = NodeRef::Absolute(count as u8);
                nodes[count] = Place { node: n };
                count += 1;
                this
            }
        };
        if let Some(edge) = edge {
            queue.at[queue.count] = EdgeRef {
                first: prev,
                other: this,
                edge,
            };
            queue.count += 1;
        }
        prev = this;
        if s.len() <= next {
            break;
        }
        match scan::create_edge(s, next)? {
            None => {
                edge = None;
                at = next;
            }
            Some((e, to)) => {
                edge = Some(e);
                at = to;
            }
        }
    }
    // The edges that wait are joined.
    let apart = Pair {
        rank: 0,
        edge: none,
    };
    let mut pairs = [apart; PAIRS];
    let mut edges: usize = 0;
    for k in 0..queue.count {
        let e = queue.at[k];
        match cd::indices(e, count) {
            Ends::Dropped => {}
            Ends::Missing => return Err(CdError::MissingNode { edge: k }),
            Ends::Both(a, b) => {
                let p = cd::pair_place(a, b);
                if 0 < pairs[p].rank {
                    return Err(CdError::RepeatEdge { a, b });
                }
                edges += 1;
                pairs[p] = Pair {
                    rank: edges as u32,
                    edge: e.edge,
                };
            }
        }
    }
    Ok(Cd {
        nodes,
        count,
        pairs,
        edges,
    })
}
