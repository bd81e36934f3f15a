// Ranks of pairs in place of their numbers, and blocks: of a place its pairs with the places before it, the ranks being digits of one number.
#![tactic(auto)]

ghost use Rattle.std.specs.Prelude.{◌≡◌, ℕ, ◌+◌, ◌*◌, ◌<◌, ◌≤◌, length, replicate};
ghost use Rattle.cd.specs.Diagrams.{limit};
ghost use Rattle.filing.specs.Numberings.{Numbering, at};
ghost use Rattle.blocks.specs.Blocks.{Keyed};
ghost use Rattle.blocks.specs.Ranks.{table};

use cd::{LIMIT, SQUARE};
pub use ranks::Ranks;

mod ranks;

// Ranks are digits to this base.
const BASE: u64 = 128;

// A numbering's nodes, place by place, and for each place that was reached and each node the node's block there.
#[derive(Clone, Copy)]
pub struct Trial {
    pub nodes: [usize; LIMIT],
    pub keys: [u64; SQUARE],
}

impl Trial {
    // Nothing is reached yet.
    pub fn new(nodes: [usize; LIMIT]) -> Self
        ensures { (result.nodes ≡ nodes) × (result.keys ≡ replicate (limit * limit) 0) }
    {
        Trial {
            nodes,
            keys: [0; SQUARE],
        }
    }

    // The blocks of every place. (In place: made by value they were copied, and a small record was slower.)
    pub fn grow_all(&mut self, r: &Ranks)
        requires { Numbering r.now.count (at self.old.nodes) × (self.old.keys ≡ replicate (limit * limit) 0) }
        ensures { (self.new.nodes ≡ self.old.nodes) × (length self.new.keys ≡ limit * limit) × Keyed limit (table limit r.now.pairs) r.now.count r.now.count (at self.old.nodes) self.new.keys }
    {
        for j in 0..r.count {
            self.grow(r, j);
        }
    }

    // The blocks of every place, of a numbering.
    pub fn of(r: &Ranks, nodes: [usize; LIMIT]) -> Self
        requires { Numbering r.now.count (at nodes) }
        ensures { (result.nodes ≡ nodes) × (length result.keys ≡ limit * limit) × Keyed limit (table limit r.now.pairs) r.now.count r.now.count (at nodes) result.keys }
    {
        let mut trial = Trial::new(nodes);
        trial.grow_all(r);
        trial
    }

    // The blocks that nodes have at place j + 1, from those at place j.
    pub fn grow(&mut self, r: &Ranks, j: usize)
        requires { (j < r.now.count) × Numbering r.now.count (at self.old.nodes) × Keyed limit (table limit r.now.pairs) r.now.count j (at self.old.nodes) self.old.keys }
        ensures { (self.new.nodes ≡ self.old.nodes) × (length self.new.keys ≡ limit * limit) × Keyed limit (table limit r.now.pairs) r.now.count (j + 1) (at self.old.nodes) self.new.keys }
    {
        if j + 1 < r.count {
            let v = self.nodes[j];
            for w in 0..LIMIT {
                self.keys[LIMIT * (j + 1) + w] = self.keys[LIMIT * j + w] * BASE
                    + r.pairs[LIMIT * v + w];
            }
        }
    }

    // The block that the node of place k has at place j.
    pub fn block(&self, j: usize, k: usize) -> u64
        requires { (j < limit) × (k < limit) × (at self.now.nodes k < limit) }
        ensures { result ≡ at self.now.keys (limit * j + at self.now.nodes k) }
    {
        self.keys[LIMIT * j + self.nodes[k]]
    }

    // The blocks of the numbering's own nodes.
    pub fn own_blocks(&self, n: usize) -> [u64; LIMIT]
        requires { (n ≤ limit) × Numbering n (at self.now.nodes) }
        ensures { (length result ≡ limit) × ((i : ℕ) → i < n → at result i ≡ at self.now.keys (limit * i + at self.now.nodes i)) }
    {
        let mut tops = [0; LIMIT];
        for i in 0..n {
            tops[i] = self.block(i, i);
        }
        tops
    }
}
