// Writes the model of two formulas, one for the initial states and one for the step: its states are the 64 letters.
#![tactic(auto)]

ghost use Rattle.std.specs.Prelude.{◌≡◌};
ghost use Rattle.formula_models.specs.Refusals.{number, place};
ghost use Rattle.formula_models.specs.Answer.{told, FormulasRight};

use definitions::numbers::SHORT_SLICE;
use systems::read_system;

mod rows; // the successors of all states, by one walk over the step's formula
mod records; // the model's bytes

// The bytes of a model of 64 states.
pub const MODEL_BYTES: usize = 704;

// Why nothing is written.
#[derive(Clone, Copy, Debug, PartialEq, Eq)]
pub enum Refusal {
    // the formulas' own
    OfSystem(systems::Refusal),
    // the slice is too short for the model
    ShortModel,
}

impl Refusal {
    // The refusal's number.
    pub fn number(self) -> u64
        ensures { result ≡ number self }
    {
        match self {
            Refusal::OfSystem(x) => x.number(),
            Refusal::ShortModel => SHORT_SLICE,
        }
    }

    // The byte of the formulas that it is about.
    pub fn place(self) -> usize
        ensures { result ≡ place self }
    {
        match self {
            Refusal::OfSystem(x) => x.place(),
            Refusal::ShortModel => 0,
        }
    }
}

impl From<systems::Refusal> for Refusal {
    ghost use Rattle.std.specs.Prelude.{◌≡◌};
    ghost use Rattle.formula_models.specs.declared.Refusal.TheVariants.{OfSystem};

    ghost from_gives = { λ x r. r ≡ OfSystem x };

    fn from(refusal: systems::Refusal) -> Refusal {
        Refusal::OfSystem(refusal)
    }
}

// Reads two formulas and writes their model: any bytes and any slice have one answer. The slice then begins with the model; a refusal leaves it as it was.
pub fn read_formulas(formulas: &[u8], model: &mut [u8]) -> Result<(), Refusal>
    ensures { FormulasRight formulas.now model.old model.new (told result) }
{
    let step = read_system(formulas)?;
    if model.len() < MODEL_BYTES {
        return Err(Refusal::ShortModel);
    }
    records::write_model(formulas, step, model);
    Ok(())
}
