//! The formulas of strikes as lines.
ghost use Rattle.std.specs.Prelude.{◌≡◌, ◌++◌, List, [], ◌∷◌, Some, IfOk, OnOk};
ghost use Rattle.until.specs.Formulas.{Formula};
ghost use Rattle.strikes.specs.declared.strike.Strike.{Strike as StrikeRecord};
ghost use Rattle.strikes.specs.Told.{conj};
ghost use Rattle.crosscheck.specs.FormulaLines.{Denotes, Added, Continues, Joined, Beside, formulas_of, FormulaLines};

use model::{Machine, State};
use std::alloc::{AllocError, Global};
use strikes::{Ground, Strike};
use until::Line;

/// The formulas of strikes, each by those of the strikes before it.
#[derive(Drop)]
pub(crate) struct Formulas<L> {
    pub(crate) lines: Vec<Line<L>>,
    /// Each strike, with the line of its formula.
    told: Vec<(Strike, usize)>,
}

impl<L: Copy> Formulas<L> {
    pub(crate) fn new<M: Machine<Label = L>>(
        heap: Global,
        machine: &M,
        strikes: &[Strike],
    ) -> Result<Formulas<L>, AllocError>
        ensures { IfOk result (λ f. FormulaLines (M.Machine.meaning machine.now) strikes.now f.lines.items f.told.items) }
    {
        let mut formulas = Formulas {
            lines: Vec::new(heap),
            told: Vec::new(heap),
        };
        for strike in strikes {
            formulas.tell(machine, *strike)?;
        }
        Ok(formulas)
    }

    /// The line of the formula of a strike.
    pub(crate) fn line_of(&self, strike: Strike) -> Option<usize> {
        let (_, line) = self.told.iter().find(|(told, _)| *told == strike)?;
        Some(*line)
    }

    /// Adds the formula of the next strike.
    fn tell<M: Machine<Label = L>>(&mut self, machine: &M, strike: Strike) -> Result<(), AllocError>
        ensures { (strikes : List StrikeRecord) → FormulaLines (M.Machine.meaning machine.now) strikes self.old.lines.items self.old.told.items → OnOk result (FormulaLines (M.Machine.meaning machine.now) (strikes ++ strike ∷ []) self.new.lines.items self.new.told.items) }
    {
        let line = match strike.ground {
            Ground::ByLabel => match machine.label(strike.first.into()) {
                Some(label) => Line::At(label),
                None => Line::True,
            },
            Ground::ByStep(u) => {
                let first = join(&mut self.lines, &self.told, strike.first)?;
                let last = join(&mut self.lines, &self.told, u)?;
                Line::Until(first, last)
            }
        };
        let number = add(&mut self.lines, line)?;
        self.told.push((strike, number))?;
        Ok(())
    }
}

/// Adds a line; answers its number.
fn add<L: Copy>(lines: &mut Vec<Line<L>>, line: Line<L>) -> Result<usize, AllocError>
    ensures { IfOk result (λ k. Added lines.old.items line k lines.new.items) }
{
    let number = lines.len();
    lines.push(line)?;
    Ok(number)
}

/// Joins a line by "and" before the rest, if there is any; answers the line of both.
fn join_before<L: Copy>(
    lines: &mut Vec<Line<L>>,
    line: usize,
    rest: Option<usize>,
) -> Result<usize, AllocError>
    ensures { (F : Formula L) (Fs : List (Formula L)) → Denotes lines.old.items line F → Joined lines.old.items rest Fs → IfOk result (λ k. Joined lines.new.items (Some k) (F ∷ Fs) × Continues lines.old.items lines.new.items) }
{
    match rest {
        None => Ok(line),
        Some(rest) => add(lines, Line::And(line, rest)),
    }
}

/// Joins the formulas of the strikes of `v` by "and", nested to the right; answers the line.
fn join<L: Copy>(
    lines: &mut Vec<Line<L>>,
    told: &[(Strike, usize)],
    v: State,
) -> Result<usize, AllocError>
    ensures { Beside lines.old.items told.now → IfOk result (λ k. Denotes lines.new.items k (conj (formulas_of lines.old.items told.now v)) × Continues lines.old.items lines.new.items) }
{
    let mut joined = None;
    let mut rest = told;
    while let Some(((strike, line), others)) = rest.split_last() {
        if strike.first == v {
            joined = Some(join_before(lines, *line, joined)?);
        }
        rest = others;
    }
    match joined {
        None => add(lines, Line::True),
        Some(line) => Ok(line),
    }
}
