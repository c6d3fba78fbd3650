// The model of two formulas.
ghost use Rattle.exports.specs.Promise.{GcModels};

use c_answers::modelling::{GcWritten, written_numbers};

// Writes the model that two formulas say, one of the initial states and one of the step.
pub fn gc_formula_model(formulas: &[u8], model: &mut [u8]) -> GcWritten
    ensures { GcModels formulas.now model.old model.new result }
{
    let answer = formula_models::read_formulas(formulas, model);
    written_numbers(answer)
}
