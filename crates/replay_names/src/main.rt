// Reads as `cdlist` does, and answers each text, infinite lengths being wished, with its components' lowest nodes, names and orders, or with what refuses them.
// oracle/names.py has the form of the answers.
#![tactic(auto)]

ghost use Rattle.std.specs.Prelude.{◌+◌, ◌*◌};
ghost use Rattle.cd.specs.Diagrams.{limit};
ghost use Rattle.lines.specs.Written.{HasRoom, AddsAtMost};

use cd::LIMIT;
use group_names::{Group, Groups, Name};
use lines::Answers;

// A space, and the name as the ticket writes it: ` A3`, ` I2(7)`.
fn put_name(out: &mut Answers, x: Name)
    requires { HasRoom 25 out.old }
    ensures { AddsAtMost 25 out.old out.new }
{
    let w = group_names::written(x);
    out.push(b' ');
    if w.letter == b'I' {
        lines::put_all(out, b"I2");
        lines::put_number(out, b'(', w.number);
        out.push(b')');
    } else {
        lines::put_number(out, w.letter, w.number);
    }
}

fn put_group(out: &mut Answers, g: &Group)
    requires { HasRoom 67 out.old }
    ensures { AddsAtMost 67 out.old out.new }
{
    lines::put_number(out, b' ', g.node as u64);
    put_name(out, g.name);
    lines::put_number(out, b' ', g.order);
}

// (By the lesser of two limits, so that no law of the library is needed.)
fn put_groups(out: &mut Answers, groups: &Groups)
    requires { HasRoom (67 * limit) out.old }
    ensures { AddsAtMost (67 * limit) out.old out.new }
{
    for g in &groups.at[..groups.count.min(LIMIT)] {
        put_group(out, g);
    }
}

// `ok` and how many components there are, then each; or `no` and the figures.
fn line(text: &[u8], out: &mut Answers)
    requires { HasRoom (67 * limit + 24) out.old }
    ensures { AddsAtMost (67 * limit + 24) out.old out.new }
{
    let r = lexicon_names::names(text, true);
    lines::put_outcome(out, r.map(|groups| [groups.count]));
    if let Ok(groups) = r {
        put_groups(out, &groups);
    }
    out.push(b'\n');
}

fn main(rt: HostRuntime) {
    let mut text = [0; 131072];
    lines::answer_lines(&rt, &mut text, line);
}
