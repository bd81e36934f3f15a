// The text tested, then read; and the reader that holds the text, a cursor and the wish for infinite lengths. That is thin: each function takes it apart and hands
// the three to `parse_from`.
#![tactic(auto)]

ghost use Rattle.std.specs.Prelude.{◌≡◌};
ghost use Rattle.parse.specs.Reading.{high, read_from, read, answer};

use cd::{Cd, CdError};

// The place of the first byte of 128 or more, or the length.
pub fn not_ascii(s: &[u8]) -> usize
    ensures { result ≡ high s.now 0 }
{
    s.iter().position(|b| 128 <= *b).unwrap_or(s.len())
}

// The diagram of the text from `at` on, or what refuses it.
#[tactic(auto, using(crate::proofs::ReadLaws::read_laws))]
pub fn parse_from(s: &[u8], at: usize, wish: bool) -> Result<Cd, CdError>
    ensures { result ≡ answer (read_from wish s.now at) }
{
    if 255 < s.len() {
        return Err(CdError::TooLong { pos: 255 });
    }
    let high = not_ascii(s);
    if high < s.len() {
        return Err(CdError::NotAscii { pos: high });
    }
    if s.len() < at {
        return Err(CdError::UnexpectedEnding { pos: at });
    }
    parse::read_text(s, at, wish)
}

#[derive(Clone, Copy)]
pub struct CdBuilder<'a> {
    pub diagram: &'a [u8],
    pub at: usize,
    pub wish: bool,
}

impl<'a> CdBuilder<'a> {
    pub fn new(diagram: &'a [u8], wish: bool) -> CdBuilder<'a>
        ensures { (result.diagram ≡ diagram.entry) × (result.at ≡ 0) × (result.wish ≡ wish) }
    {
        CdBuilder {
            diagram,
            at: 0,
            wish,
        }
    }

    // The diagram of what is left, or what refuses it.
    pub fn build(self) -> Result<Cd, CdError>
        ensures { result ≡ answer (read_from self.entry.wish self.entry.diagram.now self.entry.at) }
    {
        parse_from(self.diagram, self.at, self.wish)
    }
}

// The diagram of a text, or what refuses it: `Cd::parse`.
#[tactic(auto, unfolding(parse::specs::Reading::read))]
pub fn parse(text: &[u8], wish: bool) -> Result<Cd, CdError>
    ensures { result ≡ answer (read wish text.now) }
{
    CdBuilder::new(text, wish).build()
}
