// Which states of a model last.
ghost use Rattle.exports.specs.Promise.{GcLasting};

use c_answers::lasting_states::{GcLasts, lasting_numbers};

// Finds the states of the model from which an endless run leaves.
pub fn gc_lasting(model: &[u8]) -> GcLasts
    ensures { GcLasting model.now result }
{
    lasting_numbers(lasting::lasting(model))
}
