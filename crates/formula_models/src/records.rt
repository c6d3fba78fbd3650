// The bytes of the model: a record for each of the 64 states.
ghost use Rattle.std.specs.Prelude.{◌≡◌, ◌++◌, ◌+◌, ◌≤◌, length, get_or, drop};
ghost use Rattle.bits.specs.Word.{bit};
ghost use Rattle.definitions.specs.Definition1.{Formula};
ghost use Rattle.systems.specs.inner.Walks.{Stands};
ghost use Rattle.writing.specs.Wrote.{Wrote};
ghost use Rattle.formula_models.specs.Bytes.{record_bytes, model_length, bytes_of, record_of, records, model_bytes};
ghost use Rattle.formula_models.specs.inner.Rows.{model_states, SystemStands};

use crate::rows::{STATES, rows_at};
use formulas::label_at;
use writing::{put_byte, put_word};

// The kind of a state's record.
const STATE: u8 = 0x20;

// Rows for the operands of the deepest step's formula.
const GRID: usize = 8192;

// A set of states, lowest byte first.
fn put_set(out: &mut [u8], at: usize, set: u64) -> usize
    requires { at + 8 ≤ length out.old }
    ensures { Wrote (bytes_of 8 set) out.old at out.new result }
{
    put_word(out, at, &set.to_le_bytes())
}

// The record of a state.
fn put_record(out: &mut [u8], at: usize, letter: u8, initial: bool, set: u64) -> usize
    requires { at + record_bytes ≤ length out.old }
    ensures { Wrote (record_of letter initial set) out.old at out.new result }
{
    let a = put_byte(out, at, STATE);
    let b = put_byte(out, a, letter);
    let c = put_byte(out, b, u8::from(initial));
    put_set(out, c, set)
}

// The records of all states: state x has the letter x, and the successors at x.
fn put_records(out: &mut [u8], initial: u64, successors: &[u64]) -> usize
    requires { (model_length ≤ length out.old) × (model_states ≤ length successors.now) }
    ensures { Wrote (records (bit initial) (λ x. get_or successors.now x 0) model_states) out.old 0 out.new result }
{
    let mut end: usize = 0;
    for x in 0..STATES {
        end = put_record(out, end, x as u8, bits::has(initial, x), successors[x]);
    }
    end
}

// The model of the two formulas that stand in the system.
pub fn write_model(system: &[u8], step: usize, model: &mut [u8])
    requires { SystemStands system.now step × (model_length ≤ length model.old) }
    ensures { (f g : Formula) → Stands system.now f g step → model.new ≡ model_bytes f g ++ drop model_length model.old }
{
    let initial = label_at(system, 1);
    let mut grid = [0u64; GRID];
    rows_at(system, step, &mut grid, 0);
    put_records(model, initial, &grid);
}
