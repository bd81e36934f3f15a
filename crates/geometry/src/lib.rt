// The geometers' calls: matrices, mirrors and walls, the two generators, the reflections. Each has no `requires`. `walls` of what is not public tells Coxeter's
// walls from the Rust's mirrors. (It stays a flag: it only goes on to `normals::normals` and `generator::of`, which say why, and the definitions have it as a Bool.)
#![tactic(auto)]

ghost use Rattle.std.specs.Prelude.{◌≡◌, ◌≤◌, Ok, Err};
ghost use Rattle.cd.specs.Diagrams.{limit};
ghost use Rattle.cd.specs.declared.CdError.TheVariants.{NoFamily};
ghost use Rattle.cox.specs.Families.{is_family};
ghost use Rattle.cox.specs.Shown.{family_of};
ghost use Rattle.cox.specs.Squares as squares;
ghost use Rattle.float.specs.Pick.{pick};
ghost use Rattle.geometry.specs.Points.{generator_over, generator_of_text, wall_generator_of_text, reflections_of_text};
ghost use Rattle.geometry.specs.Squares.{shown_mirrors, matrix_of, normals_of, mirrors_of, walls_of, family_matrix_of, family_normals_of, family_mirrors_of, family_walls_of};
ghost use Rattle.normals.specs.Mirrors.{mirrors as the_mirrors};
ghost use Rattle.parse.specs.Reading.{read};

use cd::{CdError, SQUARE};
use cox::Cox;
use generator::Generator;
use reflections::Reflections;

// A matrix, or mirrors or walls as columns: row r of column c at 9 × c + r, for the first `count` of each. (No `cox::Cox`: of mirrors the entries past them are
// zeros and no matrix's. No heap: an array for the most nodes, and a count.)
#[derive(Clone, Copy)]
pub struct Square {
    pub at: [f64; SQUARE],
    pub count: usize,
}

// The mirrors of a matrix, or its walls.
fn normals(walls: bool, matrix: &Cox) -> Result<Square, CdError>
    requires { matrix.now.count ≤ limit }
    ensures { (e : squares.Square) → matrix.now.at ≡ squares.flat_square limit e → result ≡ shown_mirrors matrix.now.count (the_mirrors walls e matrix.now.count) }
{
    let at = normals::normals(walls, &matrix.at, matrix.count)?;
    Ok(Square {
        at,
        count: matrix.count,
    })
}

// ---- of a text

pub fn matrix(text: &[u8], wish: bool) -> Result<Square, CdError>
    ensures { result ≡ matrix_of (read wish text.now) }
{
    let Cox { at, count } = cox::matrix(builder::parse(text, wish)?);
    Ok(Square { at, count })
}

fn text_normals(walls: bool, text: &[u8], wish: bool) -> Result<Square, CdError>
    ensures { result ≡ normals_of walls (read wish text.now) }
{
    normals(walls, &cox::matrix(builder::parse(text, wish)?))
}

pub fn mirrors(text: &[u8], wish: bool) -> Result<Square, CdError>
    ensures { result ≡ mirrors_of (read wish text.now) }
{
    text_normals(false, text, wish)
}

// Coxeter's walls, which meet with product −cos(π/m).
pub fn walls(text: &[u8], wish: bool) -> Result<Square, CdError>
    ensures { result ≡ walls_of (read wish text.now) }
{
    text_normals(true, text, wish)
}

fn generator_over(walls: bool, text: &[u8], wish: bool) -> Result<Generator, CdError>
    ensures { result ≡ generator_over walls (read wish text.now) }
{
    let cd = builder::parse(text, wish)?;
    let columns = normals(walls, &cox::matrix(cd))?;
    let values = generator::values(cd);
    if let Some(node) = generator::first_infinite(values, cd.count) {
        return Err(CdError::Infinite { node });
    }
    Ok(generator::of(walls, &columns.at, values, cd.count))
}

// As the Rust has it.
pub fn generator(text: &[u8], wish: bool) -> Result<Generator, CdError>
    ensures { result ≡ generator_of_text (read wish text.now) }
{
    generator_over(false, text, wish)
}

// At its true distances: half a node's value from its wall.
pub fn wall_generator(text: &[u8], wish: bool) -> Result<Generator, CdError>
    ensures { result ≡ wall_generator_of_text (read wish text.now) }
{
    generator_over(true, text, wish)
}

pub fn reflections(text: &[u8], wish: bool) -> Result<Reflections, CdError>
    ensures { result ≡ reflections_of_text (read wish text.now) }
{
    let mirrors = mirrors(text, wish)?;
    Ok(reflections::of(&mirrors.at, mirrors.count))
}

// ---- of a family

fn family(letter: u8, size: usize) -> Result<Cox, CdError>
    ensures { result ≡ pick (is_family limit letter size) (Ok (family_of letter size)) (Err NoFamily) }
{
    if !cox::families::is_family(letter, size) {
        return Err(CdError::NoFamily);
    }
    Ok(cox::families::family_matrix(letter, size))
}

#[tactic(auto, using(crate::proofs::Shapes::family_shown, crate::proofs::Shapes::family_refused))]
pub fn family_matrix(letter: u8, size: usize) -> Result<Square, CdError>
    ensures { result ≡ family_matrix_of letter size }
{
    let Cox { at, count } = family(letter, size)?;
    Ok(Square { at, count })
}

fn family_normals(walls: bool, letter: u8, size: usize) -> Result<Square, CdError>
    ensures { result ≡ family_normals_of walls letter size }
{
    normals(walls, &family(letter, size)?)
}

pub fn family_mirrors(letter: u8, size: usize) -> Result<Square, CdError>
    ensures { result ≡ family_mirrors_of letter size }
{
    family_normals(false, letter, size)
}

pub fn family_walls(letter: u8, size: usize) -> Result<Square, CdError>
    ensures { result ≡ family_walls_of letter size }
{
    family_normals(true, letter, size)
}
