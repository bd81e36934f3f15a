// Ticket K4: which name fits each component. A component is tried against each name of its size: a search places the family's nodes one after another on nodes
// of the component that are joined as the family's are.
#![tactic(auto)]

ghost use Rattle.std.specs.Prelude.{List, [], ◌≡◌, ℕ, ◌<◌, ◌≤◌, length};
ghost use Rattle.cd.specs.Diagrams.{Stored, limit, cd_of};
ghost use Rattle.cd.specs.Minimal.{Decides};
ghost use Rattle.cd.specs.declared.Node.{Node};
ghost use Rattle.filing.specs.Numberings.{at};
ghost use Rattle.tables.specs.Diagrams.{diagram};
ghost use Rattle.tables.specs.Tables.{IsKept};
ghost use Rattle.group_names.specs.declared.Name.{Name as AName};
ghost use Rattle.group_names.specs.Named.{listing, Names};
ghost use Rattle.group_search.specs.Steps.{whole_number, Wants, Suits, GoesOn, Ready, label_count, Placed, Bond, Mirrored, candidates as the_candidates, Tells};

use cd::{Cd, CdError, LIMIT, SQUARE};
use group_names::{Group, Groups, Name};

// ---- the search

// A whole number in the table of pairs.
fn whole(m: u32) -> u64
    ensures { result ≡ whole_number m }
{
    m as u64 * 0x1_0000_0000 + 1
}

// What the node at place k is to be joined by to those at the places before.
fn wanted(x: Name, k: usize) -> [u64; LIMIT]
    requires { k < limit }
    ensures { Wants x k result }
{
    let mut out = [0; LIMIT];
    for i in 0..k {
        out[i] = whole(group_names::entry(x, i, k));
    }
    out
}

// ---- a component's name

// How many of n nodes have the label c.
#[tactic(auto, using(crate::proofs::Placing::count_taken))]
fn label_count(of: &[usize; LIMIT], n: usize, c: usize) -> usize
    requires { n ≤ limit }
    ensures { result ≡ label_count of.now c n }
{
    of[..n].iter().filter(|label| **label == c).count()
}

// The names that a component of m nodes may have, if it is joined by p where m is 2.
#[tactic(auto, unfolding(crate::specs::Steps::candidates))]
fn candidates(m: usize, p: u32) -> [Name; 10]
    ensures { result ≡ the_candidates m p }
{
    [
        Name::A(m),
        Name::B(m),
        Name::D(m),
        Name::E6,
        Name::E7,
        Name::E8,
        Name::F4,
        Name::H3,
        Name::H4,
        Name::I2(p),
    ]
}

// A component of a diagram: of its first `count` nodes those with the label `lowest`, `size` of them. That of a node is the lowest node of its component.
#[derive(Clone, Copy)]
struct Component<'a> {
    pairs: &'a [u64; SQUARE],
    of: &'a [usize; LIMIT],
    count: usize,
    lowest: usize,
    size: usize,
    ghost few: { count ≤ limit },
    ghost inside: { lowest < count },
    ghost own: { at of.now lowest ≡ lowest },
    ghost counted: { size ≡ label_count of.now lowest count },
    ghost mirrored: { Mirrored limit count pairs.now },
}

impl Component<'_> {
    // Whether v can stand at place k: it is none of the nodes at the places before, and joined to each as is wanted. (From the last place down, since most nodes
    // of a family are joined to the one before.)
    fn suits(&self, wanted: &[u64; LIMIT], p: &[usize; LIMIT], k: usize, v: usize) -> bool
        requires { (k < limit) × (v < limit) × ((i : ℕ) → i < k → at p.now i < limit) }
        ensures { (x : AName) → Wants x k wanted.now → Decides (Suits limit self.now.pairs.now x (at p.now) k v) result }
    {
        (0..k).rev().all(|i| p[i] != v && tables::pair_at(self.pairs, p[i], v) == wanted[i])
    }

    // Whether the places from k on can be filled with nodes of the component, the first k being filled.
    fn goes_on(&self, x: Name, k: usize, p: [usize; LIMIT]) -> bool
        requires { Ready limit self.now.pairs.now self.now.of.now self.now.count self.now.lowest x self.now.size k p }
        ensures { Decides (GoesOn limit self.now.pairs.now self.now.of.now self.now.count self.now.lowest x self.now.size k p) result }
    {
        if k == self.size {
            return true;
        }
        let wanted = wanted(x, k);
        for v in 0..self.count {
            if self.of[v] == self.lowest && self.suits(&wanted, &p, k, v) {
                let mut next = p;
                next[k] = v;
                if self.goes_on(x, k + 1, next) {
                    return true;
                }
            }
        }
        false
    }

    // Whether all nodes of the name's diagram have a place in the component, and leave out none.
    #[tactic(auto, using(crate::proofs::Placing::ready_start, crate::proofs::Placing::count_le))]
    fn fits(&self, x: Name) -> bool
        ensures { Decides (Placed limit self.now.pairs.now self.now.of.now self.now.count self.now.lowest self.now.size x) result }
    {
        group_names::is_name(x)
            && group_names::rank(x) == self.size
            && self.goes_on(x, 0, [0; LIMIT])
    }

    // What joins the lowest node to another, a whole number if it is one: its p, if there are two nodes.
    fn bond(&self) -> Option<u32>
        ensures { Bond limit self.now.pairs.now self.now.of.now self.now.count self.now.lowest result }
    {
        let v = (0..self.count).find(|v| self.of[*v] == self.lowest && *v != self.lowest)?;
        Some((tables::pair_at(self.pairs, self.lowest, v) / 0x1_0000_0000) as u32)
    }

    // The component's name, if one fits. (Where nothing joins it to another, I2(0) is no name.)
    fn name(&self) -> Option<Name>
        ensures { Tells limit self.now.pairs.now self.now.of.now self.now.count self.now.lowest result }
    {
        candidates(self.size, self.bond().unwrap_or(0))
            .into_iter()
            .find(|x| self.fits(*x))
    }
}

// ---- the components, one after another

// Nothing listed yet.
#[tactic(auto, unfolding(cd::specs::Arrays::padded))]
fn none() -> Groups
    ensures { result ≡ listing [] }
{
    let blank = Group {
        node: 0,
        name: Name::A(0),
        order: 0,
    };
    Groups {
        at: [blank; LIMIT],
        count: 0,
    }
}

// The names of a diagram's components, or the first component that no name fits.
#[tactic(auto, using(crate::proofs::Placing::count_le))]
pub fn groups(cd: Cd) -> Result<Groups, CdError>
    requires { cd.count ≤ limit }
    ensures { (ns : List Node) (es : List Stored) → cd ≡ cd_of ns es → IsKept limit (diagram ns es) → Names (length ns) es result }
{
    let of = minimal::components(cd);
    let pairs = tables::pairs_of(cd);
    let mut out = none();
    for c in 0..cd.count {
        if of[c] == c {
            let component = Component {
                pairs: &pairs,
                of: &of,
                count: cd.count,
                lowest: c,
                size: label_count(&of, cd.count, c),
            };
            let Some(name) = component.name() else {
                return Err(CdError::NoName { node: c });
            };
            out.at[out.count] = Group {
                node: c,
                name,
                order: group_names::order(name),
            };
            out.count += 1;
        }
    }
    Ok(out)
}
