// Which states of a model last.
ghost use Rattle.exports.specs.Promise.{GcLasting};

use c_answers::lasting_states::GcLasts;

// Finds the states of the model from which an endless run leaves.
#[unsafe(no_mangle)]
pub extern "C" fn gc_lasting(model: &[u8]) -> GcLasts
    ensures { GcLasting model.now result }
{
    exports::lasting_states::gc_lasting(model)
}
