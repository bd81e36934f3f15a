// The filing record: the layout of a diagram under the numbering that makes it smallest, written into a lent buffer.
#![tactic(auto)]

ghost use Rattle.std.specs.Prelude.{List, ◌∷◌, ◌++◌, ◌≡◌, ◌+◌, ◌*◌, ◌-◌, ◌≤◌, ◌<◌, length, take, drop, replicate};
ghost use Rattle.cd.specs.Diagrams.{Stored, limit, cd_of};
ghost use Rattle.cd.specs.Minimal.{Decides};
ghost use Rattle.cd.specs.declared.Node.{Node};
ghost use Rattle.filing.specs.Bytes.{◌≼◌, bytes, written};
ghost use Rattle.filing.specs.Numberings.{Numbering, at};
ghost use Rattle.filing.specs.Records.{nodes_length, record_length};
ghost use Rattle.tables.specs.Diagrams.{diagram};
ghost use Rattle.tables.specs.Tables.{Numbers, IsKept, entries, table_nodes, table_row, table_pairs, table_layout};
ghost use Rattle.records.specs.Written.{Written};

use cd::{Cd, LIMIT};
use tables::Tables;

// A record's length; its node's; where its pairs begin.
pub const RECORD: usize = 370;

pub const NODE: usize = 9;

pub const PAIRS_AT: usize = 82;

// Stores bytes from `at` on. (By a loop, since `copy_from_slice` would have the archive for C ask for memmove.)
pub fn put(out: &mut [u8], at: usize, from: &[u8])
    requires { at + length from.now ≤ length out.old }
    ensures { out.new ≡ written at from.now out.old }
{
    for i in 0..from.len() {
        out[at + i] = from[i];
    }
}

// A number in eight bytes, the highest first.
fn put_number(out: &mut [u8], k: usize, x: u64)
    requires { k + 8 ≤ length out.old }
    ensures { out.new ≡ written k (bytes 8 x) out.old }
{
    put(out, k, &x.to_be_bytes());
}

// The count of nodes, and zeros in all other places.
fn put_count(out: &mut [u8], n: usize)
    requires { (n ≤ limit) × (record_length limit ≤ length out.old) }
    ensures { out.new ≡ written 0 (n ∷ replicate (record_length limit - 1) 0) out.old }
{
    out[..RECORD].fill(0);
    out[0] = n as u8;
}

// The nodes, each at its place under the numbering.
fn put_nodes(out: &mut [u8], t: &Tables, p: &[usize; LIMIT])
    requires { Numbering t.now.count (at p.now) × (record_length limit ≤ length out.old) }
    ensures { out.new ≡ written 1 (table_nodes (entries t.now) (at p.now) t.now.count) out.old }
{
    for i in 0..t.count {
        let k = 1 + NODE * i;
        out[k] = t.kind(p[i]);
        put_number(out, k + 1, t.bits(p[i]));
    }
}

// The pairs of place j with the places before it, at k.
fn put_row(out: &mut [u8], k: usize, t: &Tables, p: &[usize; LIMIT], j: usize)
    requires { (j < t.now.count) × Numbering t.now.count (at p.now) × (k + 8 * j ≤ length out.old) }
    ensures { out.new ≡ written k (table_row limit (entries t.now) (at p.now) j) out.old }
{
    for i in 0..j {
        put_number(out, k + 8 * i, t.pair(p[i], p[j]));
    }
}

// The pairs, row by row.
fn put_pairs(out: &mut [u8], t: &Tables, p: &[usize; LIMIT])
    requires { Numbering t.now.count (at p.now) × (record_length limit ≤ length out.old) }
    ensures { out.new ≡ written (1 + nodes_length limit) (table_pairs limit (entries t.now) (at p.now) t.now.count) out.old }
{
    let mut k = PAIRS_AT;
    for j in 0..t.count {
        put_row(out, k, t, p, j);
        k += 8 * j;
    }
}

// The layout under a numbering.
fn lay(out: &mut [u8], t: &Tables, p: &[usize; LIMIT])
    requires { Numbering t.now.count (at p.now) × (record_length limit ≤ length out.old) }
    ensures { out.new ≡ table_layout limit (entries t.now) (at p.now) ++ drop (record_length limit) out.old }
{
    put_count(out, t.count);
    put_nodes(out, t, p);
    put_pairs(out, t, p);
}

// Whether two slices hold the same bytes.
pub fn same(a: &[u8], b: &[u8]) -> bool
    ensures { Decides (a.now ≡ b.now) result }
{
    a == b
}

// Whether a is no greater than b: the first byte that differs decides.
pub fn no_greater(a: &[u8], b: &[u8]) -> bool
    ensures { Decides (a.now ≼ b.now) result }
{
    a <= b
}

// The bytes at place i of records that stand end to end.
pub fn place(file: &[u8], i: usize) -> &[u8]
    requires { record_length limit * (i + 1) ≤ length file.now }
    ensures { result.now ≡ take (record_length limit) (drop (record_length limit * i) file.now) }
{
    let at = RECORD * i;
    &file[at..at + RECORD]
}

// Whether bytes are the layout under a numbering.
pub fn is_layout(s: &[u8], t: &Tables, p: [usize; LIMIT]) -> bool
    requires { Numbering t.now.count (at p) }
    ensures { Decides (s.now ≡ table_layout limit (entries t.now) (at p)) result }
{
    let mut out = [0; RECORD];
    lay(&mut out, t, &p);
    same(s, &out)
}

// The record of a diagram, and the first numbering that gives it: for each new place its old node.
pub fn write(cd: Cd, out: &mut [u8]) -> [usize; LIMIT]
    requires { Numbers cd.nodes × (cd.count ≤ limit) × (record_length limit ≤ length out.old) }
    ensures { (ns : List Node) (es : List Stored) → cd ≡ cd_of ns es → IsKept limit (diagram ns es) → Written limit (diagram ns es) out.old out.new result }
{
    let t = tables::of(cd);
    let found = search::smallest(&t);
    lay(out, &t, &found.numbering);
    found.numbering
}
