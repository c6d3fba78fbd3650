// The model of two formulas.
ghost use Rattle.exports.specs.Promise.{GcModels};

use c_answers::modelling::GcWritten;

// Writes the model that two formulas say, one of the initial states and one of the step.
#[unsafe(no_mangle)]
pub extern "C" fn gc_formula_model(formulas: &[u8], model: &mut [u8]) -> GcWritten
    ensures { GcModels formulas.now model.old model.new result }
{
    exports::modelling::gc_formula_model(formulas, model)
}
