// Answers each line of its input with a text's record: its digest and numbering, its equality with another's, what it is read
// back to once bytes are changed or cut off, or what a part of a buffer holds after the call. oracle/filing.py has the kinds of lines.
#![tactic(auto)]

ghost use Rattle.std.specs.Prelude.{◌≤◌, length};
ghost use Rattle.lines.specs.Written.{HasRoom, AddsAtMost};

use cd::{Cd, CdError, LIMIT};
use lexicon::Filed;
use lines::{Answers, spelled};
use records::RECORD;

// Records are written to more bytes than they take. (Parts are taken by both ends, `[0..n]`: then their length needs no proof.)
const ROOM: usize = 400;

// What a buffer holds before. No record holds it throughout, so a text that is refused shows.
const UNWRITTEN: u8 = 0xa5;

// A text's record at the start of a filled buffer.
fn record_bytes(text: &[u8], rest: u8) -> [u8; ROOM] {
    let mut bytes = [rest; ROOM];
    let _ = lexicon::write_record(text, true, &mut bytes);
    bytes
}

// How many bytes of a buffer three digits mean.
fn part(digits: &[u8]) -> usize
    ensures { result ≤ 400 }
{
    spelled::number_or(digits, 0).min(ROOM)
}

// The places' nodes; none where a text was refused. (By the lesser of two limits, so that no law of the library is needed.)
fn numbering(r: &Result<Filed, CdError>) -> &[usize]
    ensures { length result.now ≤ 9 }
{
    match r {
        Ok(f) => &f.numbering[..f.count.min(LIMIT)],
        Err(_) => &[],
    }
}

// A space and for each place the digit of its node, `-` where there are no nodes. Nodes are below ten: the modulus changes none.
fn put_numbering(out: &mut Answers, r: &Result<Filed, CdError>)
    requires { HasRoom 10 out.old }
    ensures { AddsAtMost 10 out.old out.new }
{
    let nodes = numbering(r);
    if nodes.is_empty() {
        return lines::put_all(out, b" -");
    }
    out.push(b' ');
    for node in nodes {
        out.push(b'0' + (*node % 10) as u8);
    }
}

// TEXT
fn filed(text: &[u8], out: &mut Answers)
    requires { HasRoom 147 out.old }
    ensures { AddsAtMost 147 out.old out.new }
{
    let mut bytes = [UNWRITTEN; ROOM];
    let r = lexicon::write_record(text, true, &mut bytes);
    let file = &bytes[0..RECORD];
    let back = r.and_then(|_| lexicon::read_record(file));
    lines::put_outcome(out, back.map(|_| []));
    if let Ok(cd) = back {
        spelled::put_digest(out, file);
        lines::put_numbers(out, &[cd.count, cd.edges]);
        put_numbering(out, &r);
    }
}

// TEXT|TEXT. Two texts have one record: the numberings tell which node is which.
fn compared(one: &[u8], other: &[u8], out: &mut Answers)
    requires { HasRoom 33 out.old }
    ensures { AddsAtMost 33 out.old out.new }
{
    let mut left = [UNWRITTEN; ROOM];
    let mut right = [UNWRITTEN; ROOM];
    let f = lexicon::write_record(one, true, &mut left);
    let g = lexicon::write_record(other, true, &mut right);
    if left[0..RECORD] == right[0..RECORD] {
        lines::put_all(out, b"same");
        spelled::put_digest(out, &left[0..RECORD]);
        put_numbering(out, &f);
        put_numbering(out, &g);
    } else {
        lines::put_all(out, b"apart");
        spelled::put_digest(out, &left[0..RECORD]);
        spelled::put_digest(out, &right[0..RECORD]);
    }
}

// What bytes are read back to.
fn put_read(out: &mut Answers, bytes: &[u8])
    requires { HasRoom 86 out.old }
    ensures { AddsAtMost 86 out.old out.new }
{
    let r = lexicon::read_record(bytes);
    lines::put_outcome(out, r.map(|cd| [cd.count, cd.edges]));
}

// TEXT|!OOOVV..
fn changed(text: &[u8], digits: &[u8], out: &mut Answers)
    requires { HasRoom 86 out.old }
    ensures { AddsAtMost 86 out.old out.new }
{
    let mut bytes = record_bytes(text, UNWRITTEN);
    spelled::change(&mut bytes, digits);
    put_read(out, &bytes[0..RECORD]);
}

// TEXT|~LLL
fn cut(text: &[u8], digits: &[u8], out: &mut Answers)
    requires { HasRoom 86 out.old }
    ensures { AddsAtMost 86 out.old out.new }
{
    let bytes = record_bytes(text, 0);
    put_read(out, &bytes[0..part(digits)]);
}

// TEXT|^LLL: the digest is of the whole buffer, of which the call is lent a part.
fn written(text: &[u8], digits: &[u8], out: &mut Answers)
    requires { HasRoom 95 out.old }
    ensures { AddsAtMost 95 out.old out.new }
{
    let mut bytes = [UNWRITTEN; ROOM];
    let r = lexicon::write_record(text, true, &mut bytes[0..part(digits)]);
    lines::put_outcome(out, r.map(|_| []));
    spelled::put_digest(out, &bytes);
}

fn line(s: &[u8], out: &mut Answers)
    requires { HasRoom 148 out.old }
    ensures { AddsAtMost 148 out.old out.new }
{
    let (text, rest) = lines::split(s, b'|');
    match rest {
        [] => filed(text, out),
        [b'!', digits @ ..] => changed(text, digits, out),
        [b'~', digits @ ..] => cut(text, digits, out),
        [b'^', digits @ ..] => written(text, digits, out),
        _ => compared(text, rest, out),
    }
    out.push(b'\n');
}

fn main(rt: HostRuntime) {
    let mut text = [0; 131072];
    lines::answer_lines(&rt, &mut text, line);
}
