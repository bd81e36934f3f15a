// Ranks of pairs in place of their numbers.
ghost use Rattle.std.specs.Prelude.{◌≡◌, ℕ, ◌+◌, ◌*◌, ◌≤◌, ◌<◌, List, [], nat_lt, length, take, count_by, replicate};
ghost use Rattle.std.specs.List.{Contains};
ghost use Rattle.cd.specs.Diagrams.{limit};
ghost use Rattle.filing.specs.Numberings.{at};
ghost use Rattle.blocks.specs.Blocks.{base};
ghost use Rattle.blocks.specs.Ranks.{table, Ranked};

use cd::{LIMIT, SQUARE};
use std::marker::Model;
use tables::Tables;

// Numbers, each once. Clauses see the list of them. (An array and a count, since no heap is used.)
#[derive(Drop)]
struct Listed {
    at: [u64; SQUARE],
    count: usize,
}

impl Model for Listed {
    ghost Value = { List ℕ };

    ghost view = { λ l. take l.count l.at };

    ghost invariant = { λ l. l.count ≤ limit * limit };
}

impl Listed {
    // The numbers of the pairs.
    fn of(t: &Tables) -> Self
        ensures { (u v : ℕ) → u < t.now.count → v < t.now.count → Contains result (table limit t.now.pairs u v) }
    {
        let mut list = Listed {
            at: [0; SQUARE],
            count: 0,
        };
        for u in 0..t.count {
            list.add_row(t, u);
        }
        list
    }

    // Lists a number, if it is not.
    fn add(&mut self, x: u64)
        requires { length self.old < limit * limit }
        ensures { (length self.new ≤ length self.old + 1) × ((y : ℕ) → Contains self.old y → Contains self.new y) × Contains self.new x }
    {
        if !self.at[..self.count].contains(&x) {
            self.at[self.count] = x;
            self.count += 1;
        }
    }

    // Lists the numbers of row u.
    fn add_row(&mut self, t: &Tables, u: usize)
        requires { (u < t.now.count) × (length self.old ≤ limit * u) }
        ensures { (length self.new ≤ limit * (u + 1)) × ((y : ℕ) → Contains self.old y → Contains self.new y) × ((v : ℕ) → v < t.now.count → Contains self.new (table limit t.now.pairs u v)) }
    {
        for v in 0..t.count {
            self.add(t.pair(u, v));
        }
    }

    // How many are below x.
    fn rank(&self, x: u64) -> u64
        ensures { (result ≡ count_by (λ y. nat_lt y x) self.now) × (result ≤ limit * limit) }
    {
        self.at[..self.count].iter().filter(|y| **y < x).count() as u64
    }

    // The ranks of row u.
    fn rank_row(&self, t: &Tables, u: usize, out: &mut [u64; SQUARE])
        requires { (u < t.now.count) × ((k : ℕ) → at out.old k < base) }
        ensures { ((k : ℕ) → at out.new k < base) × ((k : ℕ) → k < limit * u → at out.new k ≡ at out.old k) × ((v : ℕ) → v < t.now.count → table limit out.new u v ≡ count_by (λ y. nat_lt y (table limit t.now.pairs u v)) self.now) }
    {
        for v in 0..t.count {
            out[LIMIT * u + v] = self.rank(t.pair(u, v));
        }
    }
}

// Of the pairs of `count` nodes the ranks of their numbers: for two nodes u and v at LIMIT × u + v.
#[derive(Clone, Copy)]
pub struct Ranks {
    pub count: usize,
    pub pairs: [u64; SQUARE],
    pub ghost few: { count ≤ limit },
    pub ghost low: { (i : ℕ) → at pairs i < base },
}

impl Ranks {
    // Of no nodes.
    pub fn new() -> Self
        ensures { (result.count ≡ 0) × (result.pairs ≡ replicate (limit * limit) 0) }
    {
        Ranks {
            count: 0,
            pairs: [0; SQUARE],
        }
    }

    // The ranks of the pairs of tables. (In place: made by value they were copied, and a small record was slower.)
    pub fn fill(&mut self, t: &Tables)
        ensures { (self.new.count ≡ t.now.count) × Ranked t.now.count (table limit t.now.pairs) (table limit self.new.pairs) }
    {
        let list = Listed::of(t);
        self.count = t.count;
        for u in 0..t.count {
            list.rank_row(t, u, &mut self.pairs);
        }
    }

    pub fn of(t: &Tables) -> Self
        ensures { (result.count ≡ t.now.count) × Ranked t.now.count (table limit t.now.pairs) (table limit result.pairs) }
    {
        let mut ranks = Ranks::new();
        ranks.fill(t);
        ranks
    }
}
