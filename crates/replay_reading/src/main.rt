// Reads as `cdlist` does, with the wish for infinite lengths as the Rust does, and writes the whole reading of each text: the nodes by their bits, the edges in
// the order stored.
#![tactic(auto)]

ghost use Rattle.std.specs.Prelude.{◌≡◌, ◌<◌, ◌≤◌, slice_get, Some, IfSome};
ghost use Rattle.cd.specs.Diagrams.{limit, place_of};
ghost use Rattle.lines.specs.Written.{HasRoom, AddsAtMost};

use cd::{Cd, Edge, LIMIT, Node, PAIRS};
use lexicon::Reading;
use lines::{Answers, spelled};

fn put_node(out: &mut Answers, n: Node)
    requires { HasRoom 18 out.old }
    ensures { AddsAtMost 18 out.old out.new }
{
    match n {
        Node::Unringed => lines::put_all(out, b" o"),
        Node::Ringed(v) => {
            lines::put_all(out, b" x");
            spelled::put_double(out, v);
        }
        Node::Snub(v) => {
            lines::put_all(out, b" s");
            spelled::put_double(out, v);
        }
    }
}

// (By the lesser of two limits, so that no law of the reader is needed.)
fn put_nodes(out: &mut Answers, cd: &Cd)
    requires { HasRoom 162 out.old }
    ensures { AddsAtMost 162 out.old out.new }
{
    for p in &cd.nodes[..cd.count.min(LIMIT)] {
        put_node(out, p.node);
    }
}

// The edge that was stored as the rank-th, behind the nodes that it joins, the smaller first.
fn stored(cd: &Cd, rank: u32) -> Option<(usize, usize, Edge)>
    ensures ordered { IfSome result (λ x. x.0 ≤ x.1) }
    ensures node { IfSome result (λ x. x.1 < limit) }
    ensures there { IfSome result (λ x. slice_get cd.now.pairs (place_of x.0 x.1) ≡ Some (record { rank = rank; edge = x.2 })) }
{
    for b in 0..LIMIT {
        for a in 0..=b {
            let pair = cd.pairs[cd::pair_place(a, b)];
            if pair.rank == rank {
                return Some((a, b, pair.edge));
            }
        }
    }
    None
}

fn put_edge(out: &mut Answers, a: usize, b: usize, e: Edge)
    requires { HasRoom 84 out.old }
    ensures { AddsAtMost 84 out.old out.new }
{
    lines::put_number(out, b' ', a as u64);
    lines::put_number(out, b'-', b as u64);
    lines::put_number(out, b':', u64::from(e.num));
    lines::put_number(out, b'/', u64::from(e.den));
}

fn put_edges(out: &mut Answers, cd: &Cd)
    requires { HasRoom 3780 out.old }
    ensures { AddsAtMost 3780 out.old out.new }
{
    for k in 0..PAIRS {
        let Some((a, b, e)) = stored(cd, k as u32 + 1) else {
            return;
        };
        put_edge(out, a, b, e);
    }
}

fn line(text: &[u8], out: &mut Answers)
    requires { HasRoom 4029 out.old }
    ensures { AddsAtMost 4029 out.old out.new }
{
    let r = lexicon::read(text, true);
    lines::put_answer(out, r);
    if let Ok(Reading { cd, minimal: _ }) = r {
        put_nodes(out, &cd);
        put_edges(out, &cd);
    }
    out.push(b'\n');
}

fn main(rt: HostRuntime) {
    let mut text = [0; 65536];
    lines::answer_lines(&rt, &mut text, line);
}
