// Shelf files: the filing records of many articles in one file, each greater in byte order than the one before. No call has a `requires`; none touches a disk.
#![tactic(auto)]

ghost use Rattle.std.specs.Prelude.{◌++◌, ◌≡◌, ◌+◌, ◌*◌, ◌≤◌, length, take, drop, MatchResult};
ghost use Rattle.cd.specs.Diagrams.{limit};
ghost use Rattle.cd.specs.Minimal.{Decides};
ghost use Rattle.cd.specs.declared.CdError.TheVariants.{ShelfLength};
ghost use Rattle.filing.specs.Readable.{Readable};
ghost use Rattle.filing.specs.Records.{record_length};
ghost use Rattle.shelf.specs.Adds.{added_length, Adds};
ghost use Rattle.shelf.specs.Bisects.{Bisection, Bisects};
ghost use Rattle.shelf.specs.Checks.{NoMultiple, Checks};
ghost use Rattle.shelf.specs.Finds.{Finds};
ghost use Rattle.shelf.specs.Shelves.{Greater, Right, Present};

use cd::CdError;
use records::{RECORD, place};

// How many places a file has.
fn place_count(file: &[u8]) -> Result<usize, CdError>
    ensures { MatchResult result (λ n. length file.now ≡ record_length limit * n) (λ e. (e ≡ ShelfLength) × NoMultiple limit file.now) }
{
    if file.len() % RECORD != 0 {
        return Err(CdError::ShelfLength);
    }
    Ok(file.len() / RECORD)
}

// ---- the check

// Whether place i is greater than the place before it.
#[tactic(auto, unfolding(crate::specs::Shelves::place_at))]
fn rises(file: &[u8], i: usize) -> bool
    requires { record_length limit * (i + 1) ≤ length file.now }
    ensures { Decides (Greater limit file.now i) result }
{
    i == 0 || !records::no_greater(place(file, i), place(file, i - 1))
}

// Whether bytes can be read as a record.
fn is_readable(s: &[u8]) -> bool
    ensures { Decides (Readable limit s.now) result }
{
    lexicon::read_record(s).is_ok()
}

// Whether place i can be read and is greater than the place before it.
#[tactic(auto, unfolding(crate::specs::Shelves::place_at))]
fn is_right(file: &[u8], i: usize) -> bool
    requires { record_length limit * (i + 1) ≤ length file.now }
    ensures { Decides (Right limit file.now i) result }
{
    rises(file, i) && is_readable(place(file, i))
}

// How many places a shelf has, or what is wrong with a file.
pub fn check(file: &[u8]) -> Result<usize, CdError>
    ensures { Checks limit file.now result }
{
    let n = place_count(file)?;
    for i in 0..n {
        if !is_right(file, i) {
            return Err(CdError::ShelfPlace { place: i });
        }
    }
    Ok(n)
}

// ---- a record looked up

// Whether a record is in a file, and its place: where it is, or where it would stand. (C is told both, as 1 or 0 and the place.)
#[derive(Clone, Copy)]
pub struct Found {
    pub present: bool,
    pub place: usize,
}

// The place where bisection among n places ends. (The library's searches promise nothing of a file that is no shelf, and `Bisection` does.)
fn place_for(file: &[u8], n: usize, x: &[u8]) -> usize
    requires { record_length limit * n ≤ length file.now }
    ensures { Bisection limit file.now x.now 0 n result }
{
    let mut low = 0;
    let mut high = n;
    while low < high {
        let middle = low + (high - low) / 2;
        if records::no_greater(x, place(file, middle)) {
            high = middle;
        } else {
            low = middle + 1;
        }
    }
    low
}

// Whether x is at place p of n places.
#[tactic(auto, unfolding(crate::specs::Shelves::place_at))]
fn is_at(file: &[u8], n: usize, x: &[u8], p: usize) -> bool
    requires { record_length limit * n ≤ length file.now }
    ensures { Decides (Present limit file.now n x.now p) result }
{
    p < n && place(file, p) == x
}

// What bisection finds in any file; in one that `check` accepts, what `find` answers.
pub fn bisect(file: &[u8], bytes: &[u8]) -> Result<Found, CdError>
    ensures { Bisects limit file.now bytes.now result }
{
    lexicon::read_record(bytes)?;
    let n = place_count(file)?;
    let place = place_for(file, n, bytes);
    Ok(Found {
        present: is_at(file, n, bytes, place),
        place,
    })
}

// Whether a record is on a shelf.
pub fn find(file: &[u8], bytes: &[u8]) -> Result<Found, CdError>
    ensures { Finds limit file.now bytes.now result }
{
    let found = bisect(file, bytes)?;
    check(file)?;
    Ok(found)
}

// ---- a record added

// Whether the file with one record added fits into m bytes. (The sum of two lengths might wrap.)
fn fits(file: &[u8], m: usize) -> bool
    ensures { Decides (added_length limit file.now ≤ m) result }
{
    RECORD <= m && file.len() <= m - RECORD
}

// The file with bytes put in at `at`, in the first bytes of the buffer.
fn insert(file: &[u8], at: usize, bytes: &[u8], out: &mut [u8])
    requires { (at ≤ length file.now) × (length file.now + length bytes.now ≤ length out.old) }
    ensures { out.new ≡ (take at file.now ++ (bytes.now ++ drop at file.now)) ++ drop (length file.now + length bytes.now) out.old }
{
    records::put(out, 0, &file[..at]);
    records::put(out, at, bytes);
    records::put(out, at + bytes.len(), &file[at..]);
}

// The file with the record added, in the first bytes of the buffer; and the place of the record.
pub fn add(file: &[u8], bytes: &[u8], out: &mut [u8]) -> Result<usize, CdError>
    ensures { Adds limit file.now bytes.now out.old out.new result }
{
    let found = find(file, bytes)?;
    if found.present {
        return Err(CdError::OnShelf { place: found.place });
    }
    if !fits(file, out.len()) {
        return Err(CdError::ShortBuffer);
    }
    insert(file, RECORD * found.place, bytes, out);
    Ok(found.place)
}
