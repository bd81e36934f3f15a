// Components, and whether a diagram is minimal.
#![tactic(auto)]

ghost use Rattle.std.specs.Prelude.{List, ◌≡◌, ℕ, ◌+◌, ◌<◌, ◌≤◌, length};
ghost use Rattle.cd.specs.Diagrams.{Stored, limit, cd_of};
ghost use Rattle.cd.specs.Paths.{Labelled};
ghost use Rattle.minimal.specs.Labels.{joined_in, Marked, label_in, instead, Met};
ghost use Rattle.cd.specs.Minimal.{is_ringed, Linked, Minimal, Decides};

use cd::{Cd, LIMIT, Node, Place};

// Puts the label `to` in the place of `from`.
#[tactic(auto, unfolding(crate::specs::Labels::instead))]
fn relabel(of: &mut [usize; LIMIT], from: usize, to: usize)
    ensures { (k : ℕ) → k < limit → label_in of.new k ≡ instead from to (label_in of.old k) }
{
    for label in of.iter_mut() {
        if *label == from {
            *label = to;
        }
    }
}

// Meets the pair i, j: if an edge joins it, the two components become one, and have the lesser label.
fn meet(cd: &Cd, of: &mut [usize; LIMIT], i: usize, j: usize)
    requires { (i < j) × (j < cd.now.count) × (cd.now.count ≤ limit) × Met cd.now j i of.old }
    ensures { Met cd.now j (i + 1) of.new }
{
    if 0 < cd.pairs[cd::pair_place(i, j)].rank {
        let (a, b) = (of[i], of[j]);
        if a < b {
            relabel(of, b, a);
        } else {
            relabel(of, a, b);
        }
    }
}

// Meets the pairs of row j.
fn meet_row(cd: &Cd, of: &mut [usize; LIMIT], j: usize)
    requires { (j < cd.now.count) × (cd.now.count ≤ limit) × Met cd.now j 0 of.old }
    ensures { Met cd.now (j + 1) 0 of.new }
{
    for i in 0..j {
        meet(cd, of, i, j);
    }
}

// Each node's component, named by its lowest node, by the ranks of the pairs.
pub fn labels(cd: &Cd) -> [usize; LIMIT]
    requires { cd.now.count ≤ limit }
    ensures { Labelled (Marked cd.now.count (joined_in cd.now.pairs)) cd.now.count (label_in result) }
{
    let mut of = std::array::from_fn(|i| i);
    for j in 0..cd.count {
        meet_row(cd, &mut of, j);
    }
    of
}

// Each node's component, named by its lowest node.
pub fn components(cd: Cd) -> [usize; LIMIT]
    requires { cd.count ≤ limit }
    ensures { (ns : List Node) (es : List Stored) → cd ≡ cd_of ns es → Labelled (Linked (length ns) es) (length ns) (label_in result) }
{
    labels(&cd)
}

#[tactic(auto, unfolding(cd::specs::Minimal::is_ringed))]
pub fn is_ringed(p: Place) -> bool
    ensures { result ≡ is_ringed p.node }
{
    matches!(p.node, Node::Ringed(_))
}

// Whether each component has a ringed node.
pub fn minimal(cd: Cd) -> bool
    requires { cd.count ≤ limit }
    ensures { (ns : List Node) (es : List Stored) → cd ≡ cd_of ns es → Decides (Minimal ns es) result }
{
    let of = components(cd);
    'component: for c in 0..cd.count {
        if of[c] != c {
            continue;
        }
        for i in 0..cd.count {
            if of[i] == c && is_ringed(cd.nodes[i]) {
                continue 'component;
            }
        }
        return false;
    }
    true
}
