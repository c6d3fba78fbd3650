// Reading in order: where a mark, or the formula that begins at a place, ends: the place after it, or the first fault.
ghost use Rattle.std.specs.Prelude.{◌≡◌};
ghost use Rattle.systems.specs.Kinds.{kind_of};
ghost use Rattle.systems.specs.Reading.{misplaced as misplaced-as};
ghost use Rattle.systems.specs.inner.Walks.{shown, BodyRead, MarkRead, FormulaRead, StartRead};

use crate::Refusal;
use crate::kinds::{SystemKind, kind_of};
use definitions::kinds::FormulaKind;

const INITIAL: u8 = 0x30;

const STEP: u8 = 0x31;

const LAST_VARIABLE: u8 = 5;

// The byte at `at`, which is not what is needed there: known, or not.
fn misplaced(byte: u8, at: usize) -> Refusal
    ensures { shown result ≡ misplaced-as (kind_of byte) at }
{
    match kind_of(byte) {
        SystemKind::Nothing => Refusal::UnknownKind(at),
        SystemKind::Plain(_) | SystemKind::Next | SystemKind::Elsewhere => Refusal::WrongSort(at),
    }
}

// The mark that begins a part.
fn mark_end(system: &[u8], at: usize, mark: u8) -> Result<usize, Refusal>
    ensures { MarkRead system.now mark at result }
{
    if system.len() <= at {
        return Err(Refusal::Ended(at));
    }
    if system[at] == mark {
        Ok(at + 1)
    } else {
        Err(misplaced(system[at], at))
    }
}

// The body of a variable: its number.
fn body_end(system: &[u8], at: usize) -> Result<usize, Refusal>
    ensures { BodyRead system.now at result }
{
    if system.len() <= at {
        return Err(Refusal::Ended(at));
    }
    if system[at] <= LAST_VARIABLE {
        Ok(at + 1)
    } else {
        Err(Refusal::NoProposition(at))
    }
}

// Reads a formula at `at`; `next`: it may name variables of the next state. What a call comes to is returned at once where it is handed on, as in `rules`.
pub fn formula_end(system: &[u8], at: usize, next: bool) -> Result<usize, Refusal>
    ensures { FormulaRead system.now next at result }
{
    if system.len() <= at {
        return Err(Refusal::Ended(at));
    }
    match kind_of(system[at]) {
        SystemKind::Nothing => Err(Refusal::UnknownKind(at)),
        SystemKind::Elsewhere => Err(Refusal::WrongSort(at)),
        SystemKind::Next => {
            if next {
                return body_end(system, at + 1);
            }
            Err(Refusal::WrongSort(at))
        }
        SystemKind::Plain(k) => match k {
            FormulaKind::Proposition => return body_end(system, at + 1),
            FormulaKind::Truth => Ok(at + 1),
            FormulaKind::Falsity => Ok(at + 1),
            FormulaKind::Not => return formula_end(system, at + 1, next),
            FormulaKind::Join(_) => {
                let m = formula_end(system, at + 1, next)?;
                return formula_end(system, m, next);
            }
        },
    }
}

// The first part and the second mark: where the step's formula begins.
pub fn step_start(system: &[u8]) -> Result<usize, Refusal>
    ensures { StartRead system.now result }
{
    let first = mark_end(system, 0, INITIAL)?;
    let m = formula_end(system, first, false)?;
    mark_end(system, m, STEP)
}
