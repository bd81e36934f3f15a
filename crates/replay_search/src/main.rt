// Reads as `cdlist` does, and answers each text with how many numberings the search for its record carries to the end, or `no`.
#![tactic(auto)]

ghost use Rattle.lines.specs.Written.{HasRoom, AddsAtMost};

use cd::CdError;
use lines::Answers;

// The count of the search.
fn count(text: &[u8]) -> Result<u64, CdError> {
    let cd = builder::parse(text, true)?;
    Ok(search::smallest(&tables::of(cd)).count)
}

fn line(text: &[u8], out: &mut Answers)
    requires { HasRoom 21 out.old }
    ensures { AddsAtMost 21 out.old out.new }
{
    match count(text) {
        Ok(n) => lines::put_decimal(out, n),
        Err(_) => lines::put_all(out, b"no"),
    }
    out.push(b'\n');
}

fn main(rt: HostRuntime) {
    let mut text = [0; 65536];
    lines::answer_lines(&rt, &mut text, line);
}
