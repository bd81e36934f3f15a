// What a call for C tells in its answer and shows in lent slices.
#![tactic(auto)]

ghost use Rattle.std.specs.Prelude.{List, [], ◌∷◌, ◌++◌, ◌≡◌, ℕ, ◌≤◌, Ok, ⊤, length, get_or, take};
ghost use Rattle.std.specs.List.{All};
ghost use Rattle.std.proofs.lemmas.List.Edits.{sets};
ghost use Rattle.cd.specs.Arrays.{padded};
ghost use Rattle.cd.specs.Diagrams.{limit};
ghost use Rattle.float.specs.Pick.{pick};
ghost use Rattle.tables.specs.Tables.{IsNumber, Numbers};
ghost use Rattle.lent.specs.Outcomes.{Shows, outcome, fitted, lent, told, figures, Lends};
ghost use Rattle.lent.specs.Shown.{names_length, reflections_length, flat, node_numbers, pair_numbers, numbers_of, group_numbers, names_of, entries};

use cd::{Cd, CdError, LIMIT, Pair, Place, SQUARE};
use generator::Generator;
use geometry::Square;
use group_names::{Group, Groups};
use lexicon::Reading;
use reflections::{Matrix, Reflections};

// How many numbers an answer has.
pub const ANSWER: usize = 4;

// How many numbers stand for the names of groups, four a component; how many doubles for reflections.
const NAMES: usize = 4 * LIMIT;

const REFLECTIONS: usize = SQUARE * LIMIT;

// ---- what a call tells

// The fields of an answer, which stand behind its first number, 0.
pub type Fields = (usize, usize, usize);

// Stores the answer; its first number is what the call returns.
pub fn tell(f: [usize; ANSWER], answer: &mut [usize; ANSWER]) -> usize
    ensures { (answer.new ≡ f) × (result ≡ get_or answer.new 0 0) }
{
    *answer = f;
    answer[0]
}

// Tells 0 and an answer's fields, or a refusal's number and fields.
#[tactic(auto, unfolding(crate::specs::Outcomes::figures))]
pub fn tell_result(r: Result<Fields, CdError>, answer: &mut [usize; ANSWER]) -> usize
    ensures { (answer.new ≡ figures r) × (result ≡ get_or answer.new 0 0) }
{
    let f = match r {
        Ok((a, b, c)) => [0, a, b, c],
        Err(e) => cd::figures(e).at,
    };
    tell(f, answer)
}

// ---- what a call shows

// What is stored in a lent slice, from its front on.
pub trait Shown {
    type Item;

    ghost can_show: { Self → Type 0 };

    ghost shown: { Self → List Self.Item };

    // How many elements that are.
    fn length(&self) -> usize
        requires { can_show self.now }
        ensures { result ≡ length (shown self.now) };

    fn put(&self, out: &mut [Self::Item])
        requires { can_show self.now × (length (shown self.now) ≤ length out.old) }
        ensures { out.new ≡ sets out.old 0 (shown self.now) };
}

// What each shows, end to end.
fn put_each<T: Shown>(all: &[T], out: &mut [T::Item])
    requires { All T.can_show all.now × (length (flat T.shown all.now) ≤ length out.old) }
    ensures { out.new ≡ sets out.old 0 (flat T.shown all.now) }
{
    let mut at = 0;
    for x in all {
        let n = x.length();
        x.put(&mut out[at..at + n]);
        at += n;
    }
}

// ---- diagrams

// A node's kind and the bits of its length.
#[tactic(auto, unfolding(crate::specs::Shown::node_numbers))]
impl Shown for Place {
    type Item = u64;

    ghost can_show = { λ p. IsNumber p.node };

    ghost shown = { node_numbers };

    fn length(&self) -> usize {
        2
    }

    fn put(&self, out: &mut [u64]) {
        out[0] = tables::kind(self.node) as u64;
        out[1] = tables::bits(self.node);
    }
}

// An edge's rank, num and den, or zeros.
#[tactic(auto, unfolding(crate::specs::Shown::pair_numbers))]
impl Shown for Pair {
    type Item = u64;

    ghost can_show = { λ p. ⊤ };

    ghost shown = { pair_numbers };

    fn length(&self) -> usize {
        3
    }

    fn put(&self, out: &mut [u64]) {
        out[0] = self.rank as u64;
        out[1] = self.edge.num as u64;
        out[2] = self.edge.den as u64;
    }
}

#[tactic(auto, using(crate::proofs::Showing::numbers_long))]
impl Shown for Cd {
    type Item = u64;

    ghost can_show = { λ cd. Numbers cd.nodes };

    ghost shown = { numbers_of };

    fn length(&self) -> usize {
        2 * self.nodes[..].len() + 3 * self.pairs[..].len()
    }

    fn put(&self, out: &mut [u64]) {
        put_each(&self.nodes, out);
        put_each(&self.pairs, &mut out[2 * LIMIT..]);
    }
}

impl Shown for Reading {
    type Item = u64;

    ghost can_show = { λ r. Numbers r.cd.nodes };

    ghost shown = { λ r. numbers_of r.cd };

    fn length(&self) -> usize {
        self.cd.length()
    }

    fn put(&self, out: &mut [u64]) {
        self.cd.put(out);
    }
}

// ---- names of groups

// A component's lowest node, its name's letter and number, its group's order.
#[tactic(auto, unfolding(crate::specs::Shown::group_numbers))]
impl Shown for Group {
    type Item = u64;

    ghost can_show = { λ g. ⊤ };

    ghost shown = { group_numbers };

    fn length(&self) -> usize {
        4
    }

    fn put(&self, out: &mut [u64]) {
        let w = group_names::written(self.name);
        out[0] = self.node as u64;
        out[1] = w.letter as u64;
        out[2] = w.number;
        out[3] = self.order;
    }
}

// The components, then zeros.
#[tactic(auto, using(crate::proofs::Showing::names_long))]
impl Shown for Groups {
    type Item = u64;

    ghost can_show = { λ g. g.count ≤ limit };

    ghost shown = { names_of };

    fn length(&self) -> usize {
        NAMES
    }

    fn put(&self, out: &mut [u64]) {
        let all = &self.at[..];
        put_each(&all[..self.count], out);
        out[4 * self.count..NAMES].fill(0);
    }
}

// ---- matrices, generators, reflections

#[tactic(auto, using(crate::proofs::Copying::sets_first))]
fn put_doubles(from: &[f64], out: &mut [f64])
    requires { length from.now ≤ length out.old }
    ensures { out.new ≡ sets out.old 0 from.now }
{
    out[..from.len()].copy_from_slice(from);
}

impl Shown for Square {
    type Item = f64;

    ghost can_show = { λ s. ⊤ };

    ghost shown = { λ s. s.at };

    fn length(&self) -> usize {
        self.at[..].len()
    }

    fn put(&self, out: &mut [f64]) {
        put_doubles(&self.at, out);
    }
}

// The coordinates, then the circumradius.
impl Shown for Generator {
    type Item = f64;

    ghost can_show = { λ g. ⊤ };

    ghost shown = { λ g. g.at ++ (g.radius ∷ []) };

    fn length(&self) -> usize {
        self.at[..].len() + 1
    }

    fn put(&self, out: &mut [f64]) {
        put_doubles(&self.at, out);
        out[LIMIT] = self.radius;
    }
}

impl Shown for Matrix {
    type Item = f64;

    ghost can_show = { λ m. ⊤ };

    ghost shown = { λ m. m.at };

    fn length(&self) -> usize {
        self.at[..].len()
    }

    fn put(&self, out: &mut [f64]) {
        put_doubles(&self.at, out);
    }
}

// Nine matrices, end to end.
impl Shown for Reflections {
    type Item = f64;

    ghost can_show = { λ r. length (entries r.of) ≡ reflections_length };

    ghost shown = { λ r. entries r.of };

    fn length(&self) -> usize {
        REFLECTIONS
    }

    fn put(&self, out: &mut [f64]) {
        put_each(&self.of, out);
    }
}

// ---- what a call tells and shows, or what refuses it

// And what is told of it.
pub trait Told: Shown {
    ghost told: { Self → List ℕ };

    fn told(&self) -> Fields
        ensures { 0 ∷ result.0 ∷ result.1 ∷ result.2 ∷ [] ≡ padded 0 4 (0 ∷ told self.now) };
}

#[tactic(auto, using(crate::proofs::Showing::flag), unfolding(cd::specs::Arrays::padded))]
impl Told for Reading {
    ghost told = { λ r. r.cd.count ∷ r.cd.edges ∷ pick r.minimal 1 0 ∷ [] };

    fn told(&self) -> Fields {
        (self.cd.count, self.cd.edges, self.minimal as usize)
    }
}

#[tactic(auto, unfolding(cd::specs::Arrays::padded))]
impl Told for Cd {
    ghost told = { λ cd. cd.count ∷ cd.edges ∷ [] };

    fn told(&self) -> Fields {
        (self.count, self.edges, 0)
    }
}

#[tactic(auto, unfolding(cd::specs::Arrays::padded))]
impl Told for Groups {
    ghost told = { λ g. g.count ∷ [] };

    fn told(&self) -> Fields {
        (self.count, 0, 0)
    }
}

#[tactic(auto, unfolding(cd::specs::Arrays::padded))]
impl Told for Square {
    ghost told = { λ s. s.count ∷ [] };

    fn told(&self) -> Fields {
        (self.count, 0, 0)
    }
}

#[tactic(auto, unfolding(cd::specs::Arrays::padded))]
impl Told for Generator {
    ghost told = { λ g. g.count ∷ [] };

    fn told(&self) -> Fields {
        (self.count, 0, 0)
    }
}

#[tactic(auto, unfolding(cd::specs::Arrays::padded))]
impl Told for Reflections {
    ghost told = { λ r. r.count ∷ [] };

    fn told(&self) -> Fields {
        (self.count, 0, 0)
    }
}

// What is shown, if the slice has room for it, and what is to be told: f.
fn fit<T: Shown>(x: &T, f: Fields, out: &mut [T::Item]) -> Result<Fields, CdError>
    requires { T.can_show x.now }
    ensures { (fs : List ℕ) → 0 ∷ f.0 ∷ f.1 ∷ f.2 ∷ [] ≡ padded 0 4 (0 ∷ fs) → (out.new ≡ lent (fitted (length out.old) (Shows fs (T.shown x.now))) out.old) × (figures result ≡ told (fitted (length out.old) (Shows fs (T.shown x.now)))) }
{
    if out.len() < x.length() {
        return Err(CdError::ShortBuffer);
    }
    x.put(out);
    Ok(f)
}

pub fn show_one<T: Told>(x: &T, out: &mut [T::Item], answer: &mut [usize; ANSWER]) -> usize
    requires { T.can_show x.now }
    ensures { Lends (Shows (T.told x.now) (T.shown x.now)) out.old out.new answer.new result }
{
    tell_result(fit(x, x.told(), out), answer)
}

// An answer of which f is told.
pub fn show_as<T: Shown>(
    r: &Result<T, CdError>,
    f: Fields,
    out: &mut [T::Item],
    answer: &mut [usize; ANSWER],
) -> usize
    requires { (x : T) → r.now ≡ Ok x → T.can_show x }
    ensures { (fs : List ℕ) → 0 ∷ f.0 ∷ f.1 ∷ f.2 ∷ [] ≡ padded 0 4 (0 ∷ fs) → Lends (outcome (λ x. fs) T.shown r.now) out.old out.new answer.new result }
{
    match r {
        Ok(x) => tell_result(fit(x, f, out), answer),
        Err(e) => tell_result(Err(*e), answer),
    }
}

pub fn show<T: Told>(
    r: &Result<T, CdError>,
    out: &mut [T::Item],
    answer: &mut [usize; ANSWER],
) -> usize
    requires { (x : T) → r.now ≡ Ok x → T.can_show x }
    ensures { Lends (outcome T.told T.shown r.now) out.old out.new answer.new result }
{
    let f = match r {
        Ok(x) => x.told(),
        Err(_) => (0, 0, 0), // a refusal tells its own numbers, and these are not looked at
    };
    show_as(r, f, out, answer)
}
