// Which states of a model last, and their numbers.
ghost use Rattle.std.specs.Prelude.{◌≡◌};
ghost use Rattle.lasting.specs.Answer as lasting;
ghost use Rattle.c_answers.specs.Numbers.{lasting_numbers_of};

use lasting::LastingStates;

// What is given back: how many states the model has, and the set of those from which an endless run leaves.
#[repr(C)]
#[derive(Drop)]
pub struct GcLasts {
    pub refused: u64,
    pub place: u64,
    pub states: u64,
    pub lasting: u64,
}

// The numbers for each case of the answer.
pub fn lasting_numbers(answer: Result<LastingStates, models::Refusal>) -> GcLasts
    ensures { result ≡ lasting_numbers_of (lasting.told answer) }
{
    match answer {
        Ok(lasts) => GcLasts {
            refused: 0,
            place: 0,
            states: lasts.states as u64,
            lasting: lasts.set,
        },
        Err(x) => GcLasts {
            refused: x.number(),
            place: x.place() as u64,
            states: 0,
            lasting: 0,
        },
    }
}
