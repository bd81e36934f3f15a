// Answers each line of its input, which spells a file, a record and the length of a buffer, with what the calls on shelf files answer
// to them, and with a digest of the buffer after the record was added; or a file and the lengths of two buffers, with what the rescue of the
// file answers, and with digests of both buffers. oracle/shelf.py has the form of lines.
#![tactic(auto)]

ghost use Rattle.std.specs.Prelude.{◌≤◌, ◌≡◌, length};
ghost use Rattle.lines.specs.Written.{HasRoom, AddsAtMost};

use cd::CdError;
use lines::{Answers, spelled};
use records::RECORD;
use shelf::Found;

// Files, records and buffers have as many bytes as three digits can mean. (Parts are taken by both ends, `[0..n]`: then their length needs no proof.)
const ROOM: usize = 4096;

// What a buffer holds before. No record holds it throughout, so a refusal that wrote would show.
const UNWRITTEN: u8 = 0xa5;

// ---- spellings

// TEXT or TEXT!OOOVV.., in the first bytes of the buffer.
fn spell_place(s: &[u8], bytes: &mut [u8]) {
    let (text, digits) = lines::split(s, b'!');
    let _ = lexicon::write_record(text, true, bytes);
    spelled::change(bytes, digits);
}

// These with commas between them, or nothing. Answers how many bytes the places take.
fn spell_places(s: &[u8], bytes: &mut [u8]) -> usize
    ensures { result ≤ length bytes.old }
{
    let mut at = 0;
    let mut rest = s;
    // No `chunks_mut`: damage may be spelled that lies past its place.
    while !rest.is_empty() && RECORD <= bytes.len() - at {
        let (place, next) = lines::split(rest, b',');
        spell_place(place, &mut bytes[at..]);
        at += RECORD;
        rest = next;
    }
    at
}

// SPELLED or SPELLED#LLL, in a buffer of zeros: the bytes that are meant.
fn spell<'a>(s: &[u8], bytes: &'a mut [u8]) -> &'a [u8]
    requires { 4096 ≡ length bytes.old }
    ensures { length result.now ≤ 4096 }
{
    let (places, digits) = lines::split(s, b'#');
    let n = spell_places(places, bytes);
    &bytes[..spelled::number_or(digits, n)]
}

// ---- answers

// Whether a record is there, and its place.
fn put_found(out: &mut Answers, r: Result<Found, CdError>)
    requires { HasRoom 86 out.old }
    ensures { AddsAtMost 86 out.old out.new }
{
    lines::put_outcome(out, r.map(|f| [usize::from(f.present), f.place]));
}

// CHECK|FIND|BISECT|ADD: the digest is of the whole buffer, of which the last call is lent the first n bytes.
fn called(file: &[u8], bytes: &[u8], n: usize, out: &mut Answers)
    requires { (n ≤ 4096) × HasRoom 356 out.old }
    ensures { AddsAtMost 356 out.old out.new }
{
    lines::put_outcome(out, shelf::check(file).map(|places| [places]));
    out.push(b'|');
    put_found(out, shelf::find(file, bytes));
    out.push(b'|');
    put_found(out, shelf::bisect(file, bytes));
    out.push(b'|');
    let mut buffer = [UNWRITTEN; ROOM];
    let r = shelf::add(file, bytes, &mut buffer[0..n]);
    lines::put_outcome(out, r.map(|place| [place]));
    spelled::put_digest(out, &buffer);
}

// FILE|RECORD|LLL
fn answer(s: &[u8], out: &mut Answers)
    requires { HasRoom 356 out.old }
    ensures { AddsAtMost 356 out.old out.new }
{
    let (places, rest) = lines::split(s, b'|');
    let (place, digits) = lines::split(rest, b'|');
    let mut file = [0; ROOM];
    let mut bytes = [0; ROOM];
    let file = spell(places, &mut file);
    let bytes = spell(place, &mut bytes);
    called(file, bytes, spelled::number_or(digits, 0), out);
}

// FILE>LLL>LLL: the places kept, and the length of the tail. The digests are of the whole buffers, of which the call is lent as many bytes.
fn rescue(s: &[u8], out: &mut Answers)
    requires { HasRoom 104 out.old }
    ensures { AddsAtMost 104 out.old out.new }
{
    let (places, rest) = lines::split(s, b'>');
    let (_, last) = lines::split(rest, b'>');
    let mut file = [0; ROOM];
    let file = spell(places, &mut file);
    let mut buffer = [UNWRITTEN; ROOM];
    let mut marks = [UNWRITTEN; ROOM];
    let r = shelf_rescue::rescue(
        file,
        &mut buffer[0..spelled::number_or(rest, 0)],
        &mut marks[0..spelled::number_or(last, 0)],
    );
    lines::put_outcome(out, r.map(|r| [r.kept, r.tail]));
    spelled::put_digest(out, &buffer);
    spelled::put_digest(out, &marks);
}

// A line without `>` and `|` has an empty answer.
fn line(s: &[u8], out: &mut Answers)
    requires { HasRoom 357 out.old }
    ensures { AddsAtMost 357 out.old out.new }
{
    if s.contains(&b'>') {
        rescue(s, out);
    } else if s.contains(&b'|') {
        answer(s, out);
    }
    out.push(b'\n');
}

fn main(rt: HostRuntime) {
    let mut text = [0; 131072];
    lines::answer_lines(&rt, &mut text, line);
}
