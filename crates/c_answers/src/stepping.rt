// A walker as the host keeps it, what a step gives back, and their numbers.
ghost use Rattle.std.specs.Prelude.{◌≡◌};
ghost use Rattle.walkers.specs.Steps as walkers;
ghost use Rattle.c_answers.specs.Numbers.{walker_from, walker_numbers_of, beside, stepped_numbers_of};

use crate::following::{GcMoved, moved_numbers};
use walkers::{Step, Walker};

// A walker as the host keeps it; of `matched` it matters whether it is 0.
#[repr(C)]
#[derive(Clone, Copy)]
pub struct GcWalker {
    pub set: u64,
    pub finals: u64,
    pub taken: u32,
    pub first: u32,
    pub matched: u32,
}

// What a step gives back: the walker, as it came where the step is refused, and 1 where a final is in its set.
#[repr(C)]
#[derive(Drop)]
pub struct GcStepped {
    pub refused: u64,
    pub place: u64,
    pub matches: u64,
    pub walker: GcWalker,
}

// The same, with the walker and what is said apart: the walker that is lent is replaced by the first alone.
#[derive(Drop)]
pub struct Stepping {
    pub walker: GcWalker,
    pub says: GcMoved,
}

pub fn walker_of(w: GcWalker) -> Walker
    ensures { result ≡ walker_from w }
{
    Walker::at(w.set, w.finals, w.taken, w.first, w.matched != 0)
}

pub fn walker_numbers(w: Walker) -> GcWalker
    ensures { result ≡ walker_numbers_of w }
{
    GcWalker {
        set: w.set,
        finals: w.finals,
        taken: w.taken,
        first: w.first,
        matched: w.matched as u32,
    }
}

// The numbers for each case of the answer; a refusal leaves the walker as it came, whatever its mark was.
pub fn stepped_numbers(came: GcWalker, step: Step) -> Stepping
    ensures { beside result.walker result.says ≡ stepped_numbers_of came (walkers.told step) }
{
    let walker = match step.answer {
        Ok(_) => walker_numbers(step.walker),
        Err(_) => came,
    };
    Stepping {
        walker,
        says: moved_numbers(step.answer),
    }
}

// What a step by value gives back.
pub fn given_back(s: Stepping) -> GcStepped
    ensures { result ≡ beside s.walker s.says }
{
    GcStepped {
        refused: s.says.refused,
        place: s.says.place,
        matches: s.says.matches,
        walker: s.walker,
    }
}
