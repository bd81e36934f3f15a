// Document 01's program `cdlist`: a text a line from the first 65,536 bytes of standard input, and the answer on each. Its argument may be the wish for infinite
// lengths.
#![tactic(auto)]

ghost use Rattle.std.specs.Prelude.{◌≤◌, ◌<◌, length};
ghost use Rattle.cdlist.specs.Lists.{longest, Listed};
ghost use Rattle.lines.specs.Blocks.{IsBlock};
ghost use Rattle.lines.specs.Written.{HasRoom, AddsAtMost, AddsLine};

use lines::Answers;

// The most bytes that are written on a text.
const LONGEST: usize = 87;

fn line(text: &[u8], wish: bool, out: &mut Answers)
    requires { HasRoom longest out.old }
    ensures added { AddsLine (Listed wish) text.now out.old out.new }
    ensures bound { AddsAtMost longest out.old out.new }
{
    let r = lexicon::read(text, wish);
    lines::put_answer(out, r);
    out.push(b'\n');
}

// Answers lines from `from` on, as many as there is room for, in place of what waits. Answers where the next one starts.
fn block(s: &[u8], from: usize, wish: bool, out: &mut Answers) -> usize
    requires { from < length s.now }
    ensures block { IsBlock (Listed wish) s.now from out.new.items result }
    ensures on { from < result }
{
    out.clear();
    let mut i = from;
    // By places of the input, of which `IsBlock` speaks.
    while i < s.len() && LONGEST <= out.remaining_capacity() {
        let end = i + lines::until(&s[i..], b'\n');
        line(&s[i..end], wish, out);
        i = end + 1;
    }
    i
}

fn main(rt: HostRuntime) {
    let Some(wish) = lines::read_argument(&rt) else {
        return;
    };
    let mut text = [0; 65536];
    let n = lines::read_input(&rt, &mut text);
    let mut out = Answers::new();
    let mut from = 0;
    while from < n {
        from = block(&text[..n], from, wish, &mut out);
        if !lines::write_output(&rt, &out) {
            return;
        }
    }
}
