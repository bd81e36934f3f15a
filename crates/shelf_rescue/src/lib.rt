// The rescue of a shelf file: what can be read and rises is copied, and every place gets a mark. The call has no `requires` and touches no disk.
#![tactic(auto)]

ghost use Rattle.cd.specs.Diagrams.{limit};
ghost use Rattle.shelf_rescue.specs.Rescues.{Mark, Rescues};

use cd::CdError;
use records::RECORD;

// How many places were kept, and the length of the tail.
#[derive(Clone, Copy)]
pub struct Rescued {
    pub kept: usize,
    pub tail: usize,
}

// The mark of a place x behind the last record copied, or behind no bytes.
fn mark(x: &[u8], last: &[u8]) -> u8
    ensures { Mark limit last.now x.now result }
{
    match lexicon::read_record(x) {
        Ok(_) => records::no_greater(x, last) as u8,
        Err(e) => cd::figures(e).at[0] as u8,
    }
}

// Copies to `out` each record of the file that can be read and is greater than the last one copied, and tells of every place in `marks` what became of it.
pub fn rescue(file: &[u8], out: &mut [u8], marks: &mut [u8]) -> Result<Rescued, CdError>
    ensures { Rescues limit file.now out.old marks.old out.new marks.new result }
{
    let n = file.len() / RECORD;
    if out.len() < file.len() || marks.len() < n {
        return Err(CdError::ShortBuffer);
    }
    let mut kept = 0;
    let mut last: &[u8] = &file[..0];
    for i in 0..n {
        let x = records::place(file, i);
        let m = mark(x, last);
        marks[i] = m;
        if m == 0 {
            records::put(out, RECORD * kept, x);
            kept += 1;
            last = x;
        }
    }
    Ok(Rescued {
        kept,
        tail: file.len() % RECORD,
    })
}
