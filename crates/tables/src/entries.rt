// Tables, and their entries.
ghost use Rattle.std.specs.Prelude.{◌≡◌, ℕ, ◌+◌, ◌*◌, ◌^◌, ◌≤◌, ◌<◌};
ghost use Rattle.cd.specs.Diagrams.{limit};
ghost use Rattle.filing.specs.Numberings.{at};

use cd::{LIMIT, SQUARE};

// Of the first `count` nodes the kinds and the value bits, and of two nodes u and v, at LIMIT × u + v, the number of their pair. (Arrays and
// a count, since no heap is used.)
#[derive(Clone, Copy)]
pub struct Tables {
    pub count: usize,
    pub kinds: [u8; LIMIT],
    pub bits: [u64; LIMIT],
    pub pairs: [u64; SQUARE],
    pub ghost few: { count ≤ limit },
    pub ghost kinds_fit: { (i : ℕ) → at kinds i < 256 },
    pub ghost bits_fit: { (i : ℕ) → at bits i < 2 ^ 64 },
    pub ghost pairs_fit: { (i : ℕ) → at pairs i < 2 ^ 64 },
}

impl Tables {
    pub fn kind(&self, v: usize) -> u8
        requires { v < limit }
        ensures { result ≡ at self.now.kinds v }
    {
        self.kinds[v]
    }

    pub fn bits(&self, v: usize) -> u64
        requires { v < limit }
        ensures { result ≡ at self.now.bits v }
    {
        self.bits[v]
    }

    pub fn pair(&self, u: usize, v: usize) -> u64
        requires { (u < limit) × (v < limit) }
        ensures { result ≡ at self.now.pairs (limit * u + v) }
    {
        pair_at(&self.pairs, u, v)
    }
}

// The entry of a table of pairs.
pub fn pair_at(pairs: &[u64; SQUARE], u: usize, v: usize) -> u64
    requires { (u < limit) × (v < limit) }
    ensures { result ≡ at pairs.now (limit * u + v) }
{
    pairs[LIMIT * u + v]
}
