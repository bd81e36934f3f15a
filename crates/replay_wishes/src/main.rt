// Reads as `cdlist` does, and answers each text twice: without the wish for infinite lengths, and with it.
#![tactic(auto)]

ghost use Rattle.lines.specs.Written.{HasRoom, AddsAtMost};

use lines::Answers;

fn line(text: &[u8], out: &mut Answers)
    requires { HasRoom 176 out.old }
    ensures { AddsAtMost 176 out.old out.new }
{
    lines::put_answer(out, lexicon::read(text, false));
    lines::put_all(out, b" | ");
    lines::put_answer(out, lexicon::read(text, true));
    out.push(b'\n');
}

fn main(rt: HostRuntime) {
    let mut text = [0; 65536];
    lines::answer_lines(&rt, &mut text, line);
}
