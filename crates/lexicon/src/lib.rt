// The public calls. None has a `requires`: any input ends with an answer or a refusal. A text is read with the wish for infinite lengths or without it.
#![tactic(auto)]

ghost use Rattle.lexicon.specs.Files.{Files};
ghost use Rattle.lexicon.specs.Reads.{Reads};
ghost use Rattle.lexicon.specs.ReadsRecord.{ReadsRecord};

use cd::{Cd, CdError, LIMIT};

// A text's diagram, and whether it is minimal.
#[derive(Clone, Copy)]
pub struct Reading {
    pub cd: Cd,
    pub minimal: bool,
}

pub fn read(text: &[u8], wish: bool) -> Result<Reading, CdError>
    ensures { Reads wish text.now result }
{
    let cd = builder::parse(text, wish)?; // a refused text has no mark
    Ok(Reading {
        cd,
        minimal: minimal::minimal(cd),
    })
}

// The first numbering that gives the record that was written: for each of the first `count` places its old node. (A count beside an array, since no heap is used.)
#[derive(Clone, Copy)]
pub struct Filed {
    pub numbering: [usize; LIMIT],
    pub count: usize,
}

// The filing record of a text's diagram, in the first 370 bytes of the buffer.
pub fn write_record(text: &[u8], wish: bool, out: &mut [u8]) -> Result<Filed, CdError>
    ensures { Files wish text.now out.old out.new result }
{
    let cd = builder::parse(text, wish)?;
    if out.len() < records::RECORD {
        return Err(CdError::ShortBuffer);
    }
    let numbering = records::write(cd, out);
    Ok(Filed {
        numbering,
        count: cd.count,
    })
}

// The diagram that has these bytes for its record, in the record's own numbering.
pub fn read_record(bytes: &[u8]) -> Result<Cd, CdError>
    ensures { ReadsRecord bytes.now result }
{
    readback::read(bytes)
}
