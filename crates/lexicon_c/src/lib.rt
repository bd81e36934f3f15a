// The public calls for C: include/lexicon.h says what a caller must ensure. Each returns its answer's first number, 0 or the refusal's. A number is the wish
// for infinite lengths: 0 without it, any other with it.
#![tactic(auto)]

ghost use Rattle.lent.specs.Outcomes.{Lends};
ghost use Rattle.lent.specs.Shown.{of_square, of_generated, of_reflected};
ghost use Rattle.geometry.specs.Points.{generator_of_text, wall_generator_of_text, reflections_of_text};
ghost use Rattle.geometry.specs.Squares.{matrix_of, mirrors_of, walls_of, family_matrix_of, family_mirrors_of, family_walls_of};
ghost use Rattle.parse.specs.Reading.{read};
ghost use Rattle.lexicon_c.specs.Calls.{wished, ReadsForC, FilesForC, ReadsRecordForC, NamesForC, Tells, found_numbers, ChecksForC, FindsForC, BisectsForC, AddsForC, RescuesForC};

use cd::{CdError, LIMIT};
use lent::ANSWER;
use reflections::Reflections;
use shelf::Found;

#[unsafe(no_mangle)]
pub extern "C" fn lexicon_read(
    text: &[u8],
    wish: usize,
    out: &mut [u64],
    answer: &mut [usize; ANSWER],
) -> usize
    ensures { ReadsForC (wished wish) text.now out.old out.new answer.new result }
{
    lent::show(&lexicon::read(text, wish != 0), out, answer)
}

#[unsafe(no_mangle)]
pub extern "C" fn lexicon_write_record(
    text: &[u8],
    wish: usize,
    out: &mut [u8],
    numbering: &mut [usize; LIMIT],
    answer: &mut [usize; ANSWER],
) -> usize
    ensures { FilesForC (wished wish) text.now out.old out.new numbering.old numbering.new answer.new result }
{
    match lexicon::write_record(text, wish != 0, out) {
        Ok(f) => {
            numbering.copy_from_slice(&f.numbering);
            lent::tell([0, f.count, 0, 0], answer)
        }
        Err(e) => lent::tell_result(Err(e), answer),
    }
}

#[unsafe(no_mangle)]
pub extern "C" fn lexicon_read_record(
    bytes: &[u8],
    out: &mut [u64],
    answer: &mut [usize; ANSWER],
) -> usize
    ensures { ReadsRecordForC bytes.now out.old out.new answer.new result }
{
    lent::show(&lexicon::read_record(bytes), out, answer)
}

#[unsafe(no_mangle)]
pub extern "C" fn lexicon_matrix(
    text: &[u8],
    wish: usize,
    out: &mut [f64],
    answer: &mut [usize; ANSWER],
) -> usize
    ensures { Lends (of_square (matrix_of (read (wished wish) text.now))) out.old out.new answer.new result }
{
    lent::show(&geometry::matrix(text, wish != 0), out, answer)
}

#[unsafe(no_mangle)]
pub extern "C" fn lexicon_mirrors(
    text: &[u8],
    wish: usize,
    out: &mut [f64],
    answer: &mut [usize; ANSWER],
) -> usize
    ensures { Lends (of_square (mirrors_of (read (wished wish) text.now))) out.old out.new answer.new result }
{
    lent::show(&geometry::mirrors(text, wish != 0), out, answer)
}

#[unsafe(no_mangle)]
pub extern "C" fn lexicon_walls(
    text: &[u8],
    wish: usize,
    out: &mut [f64],
    answer: &mut [usize; ANSWER],
) -> usize
    ensures { Lends (of_square (walls_of (read (wished wish) text.now))) out.old out.new answer.new result }
{
    lent::show(&geometry::walls(text, wish != 0), out, answer)
}

#[unsafe(no_mangle)]
pub extern "C" fn lexicon_generator(
    text: &[u8],
    wish: usize,
    out: &mut [f64],
    answer: &mut [usize; ANSWER],
) -> usize
    ensures { Lends (of_generated (generator_of_text (read (wished wish) text.now))) out.old out.new answer.new result }
{
    lent::show(&geometry::generator(text, wish != 0), out, answer)
}

#[unsafe(no_mangle)]
pub extern "C" fn lexicon_wall_generator(
    text: &[u8],
    wish: usize,
    out: &mut [f64],
    answer: &mut [usize; ANSWER],
) -> usize
    ensures { Lends (of_generated (wall_generator_of_text (read (wished wish) text.now))) out.old out.new answer.new result }
{
    lent::show(&geometry::wall_generator(text, wish != 0), out, answer)
}

#[unsafe(no_mangle)]
pub extern "C" fn lexicon_reflections(
    text: &[u8],
    wish: usize,
    out: &mut [f64],
    answer: &mut [usize; ANSWER],
) -> usize
    ensures { Lends (of_reflected (reflections_of_text (read (wished wish) text.now))) out.old out.new answer.new result }
{
    // (Not by geometry::reflections, and filled in place: a Result of reflections, which have 5,840 bytes, is copied on the stack, and so are reflections by value.)
    match geometry::mirrors(text, wish != 0) {
        Ok(m) => {
            let mut all = Reflections::new();
            all.fill(&m.at, m.count);
            lent::show_one(&all, out, answer)
        }
        Err(e) => lent::tell_result(Err(e), answer),
    }
}

#[unsafe(no_mangle)]
pub extern "C" fn lexicon_family_matrix(
    letter: u8,
    size: usize,
    out: &mut [f64],
    answer: &mut [usize; ANSWER],
) -> usize
    ensures { Lends (of_square (family_matrix_of letter size)) out.old out.new answer.new result }
{
    lent::show(&geometry::family_matrix(letter, size), out, answer)
}

#[unsafe(no_mangle)]
pub extern "C" fn lexicon_family_mirrors(
    letter: u8,
    size: usize,
    out: &mut [f64],
    answer: &mut [usize; ANSWER],
) -> usize
    ensures { Lends (of_square (family_mirrors_of letter size)) out.old out.new answer.new result }
{
    lent::show(&geometry::family_mirrors(letter, size), out, answer)
}

#[unsafe(no_mangle)]
pub extern "C" fn lexicon_family_walls(
    letter: u8,
    size: usize,
    out: &mut [f64],
    answer: &mut [usize; ANSWER],
) -> usize
    ensures { Lends (of_square (family_walls_of letter size)) out.old out.new answer.new result }
{
    lent::show(&geometry::family_walls(letter, size), out, answer)
}

#[unsafe(no_mangle)]
pub extern "C" fn lexicon_names(
    text: &[u8],
    wish: usize,
    out: &mut [u64],
    answer: &mut [usize; ANSWER],
) -> usize
    ensures { NamesForC (wished wish) text.now out.old out.new answer.new result }
{
    lent::show(&lexicon_names::names(text, wish != 0), out, answer)
}

// ---- shelf files

// Tells how many places a shelf has.
#[unsafe(no_mangle)]
pub extern "C" fn lexicon_shelf_check(file: &[u8], answer: &mut [usize; ANSWER]) -> usize
    ensures { ChecksForC file.now answer.new result }
{
    lent::tell_result(shelf::check(file).map(|n| (n, 0, 0)), answer)
}

// 1 and the record's place, or 0 and the place where it would stand.
fn tell_found(r: Result<Found, CdError>, answer: &mut [usize; ANSWER]) -> usize
    ensures { Tells found_numbers r answer.new result }
{
    lent::tell_result(r.map(|f| (f.present as usize, f.place, 0)), answer)
}

#[unsafe(no_mangle)]
pub extern "C" fn lexicon_shelf_find(
    file: &[u8],
    bytes: &[u8],
    answer: &mut [usize; ANSWER],
) -> usize
    ensures { FindsForC file.now bytes.now answer.new result }
{
    tell_found(shelf::find(file, bytes), answer)
}

#[unsafe(no_mangle)]
pub extern "C" fn lexicon_shelf_bisect(
    file: &[u8],
    bytes: &[u8],
    answer: &mut [usize; ANSWER],
) -> usize
    ensures { BisectsForC file.now bytes.now answer.new result }
{
    tell_found(shelf::bisect(file, bytes), answer)
}

// Tells the place of the new record.
#[unsafe(no_mangle)]
pub extern "C" fn lexicon_shelf_add(
    file: &[u8],
    bytes: &[u8],
    out: &mut [u8],
    answer: &mut [usize; ANSWER],
) -> usize
    ensures { AddsForC file.now bytes.now out.old out.new answer.new result }
{
    lent::tell_result(shelf::add(file, bytes, out).map(|p| (p, 0, 0)), answer)
}

// Tells the places kept and the length of the tail.
#[unsafe(no_mangle)]
pub extern "C" fn lexicon_shelf_rescue(
    file: &[u8],
    out: &mut [u8],
    marks: &mut [u8],
    answer: &mut [usize; ANSWER],
) -> usize
    ensures { RescuesForC file.now out.old marks.old out.new marks.new answer.new result }
{
    lent::tell_result(
        shelf_rescue::rescue(file, out, marks).map(|s| (s.kept, s.tail, 0)),
        answer,
    )
}
