// What the programs share: input and output that fail aloud, a text a line, and answers gathered in a buffer.
#![tactic(auto)]

ghost use Rattle.std.specs.Prelude.{◌+◌, ◌-◌, ◌*◌, ◌≤◌, [], ◌∷◌, ◌++◌, ◌≡◌, ◌==◌, leb, length, List, Bool, MatchResult, OnOk};
ghost use Rattle.arrayvec.specs.ArrayVec.{Extends, array_vec_len};
ghost use Rattle.io.specs.Counts.{IsPrefixLen};
ghost use Rattle.float.specs.Pick.{pick};
ghost use Rattle.cd.specs.Refusals.{number_of};
ghost use Rattle.cd.specs.Diagrams.{Stored, cd_of};
ghost use Rattle.cd.specs.declared.Node.{Node};
ghost use Rattle.parse.specs.Reading.{Accepted, Refused};
ghost use Rattle.scan.specs.Ascii.{ascii};
ghost use Rattle.std.specs.List.{position_or_len, before_first, after_first};
ghost use Rattle.lexicon.specs.Answers.{numeral, spaced, answer_of};
ghost use Rattle.lines.specs.Written.{HasRoomOf, HasHalf, AddsAtMost};
ghost use Rattle.lines.specs.Arguments.{argument_of};

use arrayvec::ArrayVec;
use cd::CdError;
use lexicon::Reading;
use std::env::{Env, FillError};
use std::io::Read;

pub mod spelled; // spelled.rt: bytes that a line spells, and digests of bytes

// The programs' answers wait here, so that they are written many at a time. (What adds to them takes any capacity.)
pub type Answers = ArrayVec<u8, 16384>;

// Says a line on standard error: the exit status stays 0.
fn say(rt: &impl Eprint, line: &str) {
    let _ = rt.eprintln(line);
}

// Whether a program's arguments wish for infinite lengths, where they are known.
#[tactic(auto, using(std::proofs::lemmas::Bool::Decides::nat_tests), unfolding(crate::specs::Arguments::argument_of, scan::specs::Ascii::ascii))]
fn argument_of(count: usize, word: &[u8]) -> Option<bool>
    ensures { result ≡ argument_of count word.now }
{
    match count {
        0 | 1 => Some(false),
        2 => length::is_word(word, 0, b"--infinite").then_some(true),
        _ => None,
    }
}

// How many words the program was started with, its own name among them.
fn argument_count(rt: &impl Env) -> usize {
    let mut word = [0u8; 10];
    for i in 0..usize::MAX {
        if let Err(FillError::NotPresent) = rt.arg(i, &mut word) {
            return i;
        }
    }
    usize::MAX
}

// Whether the program was started with the wish for infinite lengths. Arguments that are not known are said to be so: a word mistyped must not be taken for none.
// (A word that is longer than the buffer counts as one without bytes.)
pub fn read_argument(rt: &(impl Env + Eprint)) -> Option<bool> {
    let mut word = [0u8; 10];
    let n = rt.arg(1, &mut word).unwrap_or(0);
    let wish = argument_of(argument_count(rt), &word[..n]);
    if wish.is_none() {
        say(
            rt,
            "no argument but --infinite is known, and nothing is answered",
        );
    }
    wish
}

// Reads standard input until the buffer is full or the input ends, and answers how many bytes it put at the start of the buffer. Where a read fails it says so
// and answers 0: what was read may end within a text.
pub fn read_input(rt: &(impl Input + Eprint), buf: &mut [u8]) -> usize
    ensures { IsPrefixLen result buf.new }
{
    let mut reader = rt.reader();
    let mut done = 0;
    // No `read_to_end`: it fills a `Vec`, and no heap is used.
    while done < buf.len() {
        match reader.read(&mut buf[done..]) {
            Ok(0) => return done,
            Ok(more) => done += more,
            Err(_) => {
                say(
                    rt,
                    "standard input could not be read, and nothing of it is answered",
                );
                return 0;
            }
        }
    }
    done
}

// Writes to standard output. Where that fails it says so and answers false.
pub fn write_output(rt: &(impl Print + Eprint), bytes: &[u8]) -> bool {
    if rt.write_all(bytes).is_ok() {
        return true;
    }
    say(rt, "standard output could not be written to the end");
    false
}

// The place of the first such byte, or the length.
pub fn until(s: &[u8], b: u8) -> usize
    ensures first { result ≡ position_or_len (λ x. x == b) s.now }
    ensures within { result ≤ length s.now }
{
    s.iter().take_while(|x| **x != b).count()
}

// What stands before the first such byte, and what behind it; where there is none, all and nothing.
pub fn split(s: &[u8], b: u8) -> (&[u8], &[u8])
    ensures before { result.0.now ≡ before_first (λ x. x == b) s.now }
    ensures behind { result.1.now ≡ after_first (λ x. x == b) s.now }
    ensures shorter { length result.1.now ≤ length s.now - 1 }
{
    let end = until(s, b);
    (&s[..end], s.get(end + 1..).unwrap_or(&[]))
}

// Writes what waits once it takes more than half the room of `Answers`, so that any further answer has room there.
pub fn flush_half<const N: usize>(rt: &(impl Print + Eprint), out: &mut ArrayVec<u8, N>)
    ensures kept { out.new.items ≡ pick (leb (array_vec_len out.old) 8192) out.old.items [] }
    ensures half { HasHalf out.new }
{
    if out.len() <= 8192 {
        return;
    }
    write_output(rt, out);
    out.clear();
}

// Answers each line of standard input, as much of it as the buffer holds: LF ends a line, and a last line may lack it.
pub fn answer_lines<F: FnMut(&[u8], &mut Answers)>(
    rt: &(impl Input + Print + Eprint),
    input: &mut [u8],
    mut line: F,
)
    requires { (state : F) (text : _) (out : _) → HasHalf out.now → F.pre state text out }
{
    let n = read_input(rt, input);
    let mut out = Answers::new();
    let mut rest = &input[..n];
    // No `for` over `split_inclusive`: tried, and such a loop gets no proof in a function with type parameters.
    while !rest.is_empty() {
        let (text, next) = split(rest, b'\n');
        line(text, &mut out);
        flush_half(rt, &mut out);
        rest = next;
    }
    write_output(rt, &out);
}

pub fn put_all<const N: usize>(out: &mut ArrayVec<u8, N>, s: &[u8])
    requires { HasRoomOf N (length s.now) out.old }
    ensures added { Extends out.old s.now out.new }
    ensures len { array_vec_len out.new ≡ array_vec_len out.old + length s.now }
{
    let _ = out.try_extend_from_slice(s);
}

// A number in decimal.
#[tactic(auto, using(crate::proofs::Decimals::numeral_digits))]
pub fn put_decimal<const N: usize>(out: &mut ArrayVec<u8, N>, n: u64)
    requires { HasRoomOf N 20 out.old }
    ensures added { Extends out.old (numeral n) out.new }
    ensures bound { AddsAtMost 20 out.old out.new }
{
    let mut digits = [0u8; 20];
    let k = io::decimal(n, &mut digits);
    put_all(out, &digits[..k]);
}

// A byte, and then the number in decimal.
pub fn put_number<const N: usize>(out: &mut ArrayVec<u8, N>, mark: u8, n: u64)
    requires { HasRoomOf N 21 out.old }
    ensures added { Extends out.old (mark ∷ numeral n) out.new }
    ensures bound { AddsAtMost 21 out.old out.new }
{
    out.push(mark);
    put_decimal(out, n);
}

// Each number after a space.
#[tactic(auto, using(crate::proofs::Writing::adds_figure), unfolding(lexicon::specs::Answers::spaced))]
pub fn put_numbers<const N: usize>(out: &mut ArrayVec<u8, N>, numbers: &[usize])
    requires { HasRoomOf N (21 * length numbers.now) out.old }
    ensures added { Extends out.old (spaced numbers.now) out.new }
    ensures bound { AddsAtMost (21 * length numbers.now) out.old out.new }
{
    for n in numbers {
        put_number(out, b' ', *n as u64);
    }
}

// `ok` and numbers.
#[tactic(auto, using(crate::proofs::Writing::adds_then), unfolding(scan::specs::Ascii::ascii))]
fn put_ok<const N: usize>(out: &mut ArrayVec<u8, N>, numbers: &[usize])
    requires { (length numbers.now ≤ 4) × HasRoomOf N 86 out.old }
    ensures added { Extends out.old (ascii "ok" ++ spaced numbers.now) out.new }
    ensures bound { AddsAtMost (2 + 21 * length numbers.now) out.old out.new }
{
    put_all(out, b"ok");
    put_numbers(out, numbers);
}

// `no`, the refusal's number and its fields.
#[tactic(auto, using(crate::proofs::Writing::adds_then), unfolding(scan::specs::Ascii::ascii))]
fn put_no<const N: usize>(out: &mut ArrayVec<u8, N>, e: CdError)
    requires { HasRoomOf N 86 out.old }
    ensures added { Extends out.old (ascii "no" ++ spaced (number_of e)) out.new }
    ensures bound { AddsAtMost 86 out.old out.new }
{
    let f = cd::figures(e);
    put_all(out, b"no");
    put_numbers(out, &f.at[..f.count]);
}

// Numbers that were answered, or what was refused.
pub fn put_outcome<const N: usize, const K: usize>(
    out: &mut ArrayVec<u8, N>,
    r: Result<[usize; K], CdError>,
)
    requires { (K ≤ 4) × HasRoomOf N 86 out.old }
    ensures ok { OnOk r.entry (AddsAtMost (2 + 21 * K) out.old out.new) }
    ensures bound { AddsAtMost 86 out.old out.new }
{
    match r {
        Ok(numbers) => put_ok(out, &numbers),
        Err(e) => put_no(out, e),
    }
}

// `ok`, nodes, stored edges, minimal 1 or 0; or `no`, number, fields.
#[tactic(auto, unfolding(lexicon::specs::Answers::answer_of, cd::specs::Diagrams::cd_of))]
pub fn put_answer<const N: usize>(out: &mut ArrayVec<u8, N>, r: Result<Reading, CdError>)
    requires { HasRoomOf N 86 out.old }
    ensures added { MatchResult r (λ r. (ns : List Node) (es : List Stored) → r.cd ≡ cd_of ns es → Extends out.old (answer_of (Accepted ns es) r.minimal) out.new) (λ e. (m : Bool) → Extends out.old (answer_of (Refused e) m) out.new) }
    ensures bound { AddsAtMost 86 out.old out.new }
{
    match r {
        Ok(r) => put_ok(out, &[r.cd.count, r.cd.edges, usize::from(r.minimal)]),
        Err(e) => put_no(out, e),
    }
}
