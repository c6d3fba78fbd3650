// Follows letters through a lent table, in whatever layout: a walker that is stepped, and a whole sequence at once.
#![tactic(auto)]

ghost use Rattle.std.specs.Prelude.{◌≡◌, ◌<◌, ◌≤◌, length, IfErr, OnOk, OkIff, IsOkUnless};
ghost use Rattle.definitions.specs.Definition2.{letter_count};
ghost use Rattle.automata.specs.Table.{table_entries};
ghost use Rattle.walkers.specs.declared.Refusal.TheVariants.{ShortTable, BadLetter};
ghost use Rattle.walkers.specs.Refusals.{number, place};
ghost use Rattle.walkers.specs.Steps.{largest_count, walker_at, start_of, refused_as, led_to_of, given, told, step_of};
ghost use Rattle.walkers.specs.Walks.{follow_set, follow_of, ending, Follows};

use crate::layouts::{Labels, Layout};
use automata::TABLE_ENTRIES;
use definitions::numbers::{BAD_LETTER, FULL_COUNT, SHORT_SLICE};
use formulas::LETTER_COUNT;

pub mod layouts; // what a walk asks of a table

// A letter is below this.
pub const LETTERS: u8 = LETTER_COUNT as u8;

// The count of letters goes up to this.
pub const LARGEST_COUNT: u32 = 4294967295;

// The states that it may be in, and the final states; how many letters it has taken, how many it had taken at its first
// match, 0 if there is none yet, and whether there is one. A caller in C may hand over any pair of the two.
#[derive(Clone, Copy, Debug, PartialEq, Eq)]
pub struct Walker {
    pub set: u64,
    pub finals: u64,
    pub taken: u32,
    pub first: u32,
    pub matched: bool,
}

// Why there is no step.
#[derive(Clone, Copy, Debug, PartialEq, Eq)]
pub enum Refusal {
    // the table has too few entries
    ShortTable,
    // the letter at this place is none
    BadLetter(usize),
    // the walker can count no further letter
    FullCount,
}

impl Refusal {
    // The refusal's number.
    pub fn number(self) -> u64
        ensures { result ≡ number self }
    {
        match self {
            Refusal::ShortTable => SHORT_SLICE,
            Refusal::BadLetter(_) => BAD_LETTER,
            Refusal::FullCount => FULL_COUNT,
        }
    }

    // The letter that it is about.
    pub fn place(self) -> usize
        ensures { result ≡ place self }
    {
        match self {
            Refusal::ShortTable => 0,
            Refusal::BadLetter(i) => i,
            Refusal::FullCount => 0,
        }
    }
}

// The walker that a step gives back, and whether a final is in the set that it moved to; it is given back where it was refused, too.
#[derive(Clone, Copy, Debug, PartialEq, Eq)]
pub struct Step {
    pub walker: Walker,
    pub answer: Result<bool, Refusal>,
}

impl Walker {
    // A walker with these fields.
    pub fn at(set: u64, finals: u64, taken: u32, first: u32, matched: bool) -> Walker
        ensures { result ≡ walker_at set finals taken first matched }
    {
        Walker {
            set,
            finals,
            taken,
            first,
            matched,
        }
    }

    // A walker at state 0, which has taken no letter, and has matched if 0 is final.
    pub fn start(finals: u64) -> Walker
        ensures { result ≡ start_of finals }
    {
        Walker::at(1, finals, 0, 0, bits::has(finals, 0))
    }

    // No step: the walker as it came.
    pub fn refused(self, x: Refusal) -> Step
        ensures { told result ≡ refused_as self (number x) (place x) }
    {
        Step {
            walker: self,
            answer: Err(x),
        }
    }

    // The walker after one more letter, which led it to the set: a first match stays the first.
    pub fn led_to(self, set: u64) -> Walker
        requires { self.taken < largest_count }
        ensures { result ≡ led_to_of self set }
    {
        let taken = self.taken + 1;
        let matches = set & self.finals != 0;
        let is_first = matches & !self.matched;
        Walker {
            set,
            finals: self.finals,
            taken,
            first: if is_first { taken } else { self.first },
            matched: self.matched | matches,
        }
    }

    // The walker moved by the letter; a refusal gives it back as it came.
    pub fn step(self, table: &[u64], letter: u8) -> Step
        ensures { told result ≡ step_of table.now self letter }
    {
        step_on(self, &Labels(table), letter)
    }
}

// The walker stepped where it stands: it is then what `step` gives back.
pub fn step_lent(walker: &mut Walker, table: &[u64], letter: u8) -> Result<bool, Refusal>
    ensures { told (given walker.new result) ≡ step_of table.now walker.old letter }
{
    step_lent_on(walker, &Labels(table), letter)
}

// Whether the letters lead from state 0 to a final state.
pub fn follow(table: &[u64], finals: u64, letters: &[u8]) -> Result<bool, Refusal>
    ensures result_value { ending result ≡ follow_of table.now finals letters.now }
    ensures follows { Follows table.now finals letters.now result }
{
    follow_on(&Labels(table), finals, letters)
}

// Refuses what has fewer entries than a table.
#[inline]
fn table_fits<L: Layout>(layout: &L) -> Result<(), Refusal>
    ensures exactly { OkIff result (table_entries ≤ length (L.table layout.now)) tt }
    ensures refusal { IsOkUnless result ShortTable }
{
    if layout.entries() < TABLE_ENTRIES {
        return Err(Refusal::ShortTable);
    }
    Ok(())
}

// Refuses what is no letter; it stands at i.
#[inline]
fn letter_fits(letter: u8, i: usize) -> Result<(), Refusal>
    ensures exactly { OkIff result (letter < letter_count) tt }
    ensures refusal { IsOkUnless result (BadLetter i) }
{
    if letter >= LETTERS {
        return Err(Refusal::BadLetter(i));
    }
    Ok(())
}

// Refuses a step that cannot be made: a table that is too short comes first, then what is no letter, then a full count.
#[inline]
fn step_fits<L: Layout>(walker: Walker, layout: &L, letter: u8) -> Result<(), Refusal>
    ensures ok { OnOk result ((table_entries ≤ length (L.table layout.now)) × (letter < letter_count) × (walker.taken < largest_count)) }
    ensures err { IfErr result (λ x. step_of (L.table layout.now) walker letter ≡ refused_as walker (number x) (place x)) }
{
    table_fits(layout)?;
    letter_fits(letter, 0)?;
    if walker.taken >= LARGEST_COUNT {
        return Err(Refusal::FullCount);
    }
    Ok(())
}

// The walker moved by the letter, over a table in any layout; a refusal gives it back as it came.
pub fn step_on<L: Layout>(walker: Walker, layout: &L, letter: u8) -> Step
    ensures { told result ≡ step_of (L.table layout.now) walker letter }
{
    if let Err(x) = step_fits(walker, layout, letter) {
        return walker.refused(x);
    }
    let set = layout.advance(walker.set, letter);
    Step {
        walker: walker.led_to(set),
        answer: Ok(set & walker.finals != 0),
    }
}

// The walker stepped where it stands: it is then what `step_on` gives back.
pub fn step_lent_on<L: Layout>(walker: &mut Walker, layout: &L, letter: u8) -> Result<bool, Refusal>
    ensures { told (given walker.new result) ≡ step_of (L.table layout.now) walker.old letter }
{
    let s = step_on(*walker, layout, letter);
    *walker = s.walker;
    s.answer
}

// Whether the letters lead from state 0 to a final state, over a table in any layout.
#[tactic(auto, using(crate::proofs::Answers::follow_begun, crate::proofs::Once::follows))]
pub fn follow_on<L: Layout>(layout: &L, finals: u64, letters: &[u8]) -> Result<bool, Refusal>
    ensures result_value { ending result ≡ follow_of (L.table layout.now) finals letters.now }
    ensures follows { Follows (L.table layout.now) finals letters.now result }
{
    follow_from(layout, 1, finals, letters)
}

// Whether the letters lead from a state of the set to a final state; a table that is too short is refused first.
pub fn follow_from<L: Layout>(
    layout: &L,
    set: u64,
    finals: u64,
    letters: &[u8],
) -> Result<bool, Refusal>
    ensures { ending result ≡ follow_set (L.table layout.now) finals set letters.now }
{
    table_fits(layout)?;
    let mut set = set;
    for (i, letter) in letters.iter().enumerate() {
        letter_fits(*letter, i)?;
        set = layout.advance(set, *letter);
    }
    Ok(set & finals != 0)
}
