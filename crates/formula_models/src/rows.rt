// The successors of all 64 states at once. A row of 64 words has a word for each state x, bit y for the successor y: an operator's row is made of its
// operands' rows by whole words, so that the formula is walked once and not for each state.
ghost use Rattle.std.specs.Prelude.{◌≡◌, ℕ, ◌+◌, ◌-◌, ◌^◌, ◌<◌, ◌≤◌, length, get_or};
ghost use Rattle.bits.specs.Word.{bit, word};
ghost use Rattle.formula_models.specs.inner.Rows.{model_states, all_if_of, join_words_of, RowMade, RowPut, RowsRoom, RowsAt};

use definitions::kinds::{FormulaKind, Junction};
use formulas::label_at;
use systems::kinds::{SystemKind, kind_of};

pub const STATES: usize = 64;

// The kind byte of a proposition.
const PROPOSITION: u8 = 0x01;

// All states, or none.
fn all_if(yes: bool) -> u64
    ensures { result ≡ all_if_of yes }
{
    if yes { !0 } else { 0 }
}

// The states in which variable i holds.
fn variable(i: u8) -> u64
    requires { i ≤ 5 }
    ensures { result ≡ word model_states (λ y. bit y i) }
{
    let formula = [PROPOSITION, i];
    label_at(&formula, 0)
}

fn join_words(j: Junction, a: u64, b: u64) -> u64
    ensures { result ≡ join_words_of j a b }
{
    match j {
        Junction::And => a & b,
        Junction::Or => a | b,
    }
}

// Each word of the row at base becomes what is made of its state and of itself.
fn set_row<F: Fn(usize, u64) -> u64>(grid: &mut [u64], base: usize, word: F)
    requires room { base + model_states ≤ length grid.old }
    requires can { (x w : ℕ) → x < model_states → w < 2 ^ model_states → F.pre word x w }
    ensures { RowMade grid.old grid.new base (F.post word) }
{
    for x in 0..STATES {
        grid[base + x] = word(x, grid[base + x]);
    }
}

// From every state to these.
fn same(grid: &mut [u64], base: usize, set: u64)
    requires { base + model_states ≤ length grid.old }
    ensures { RowPut grid.old grid.new base (λ x. set) }
{
    set_row(grid, base, |_, _| set);
}

// From the states in which variable i holds to all, from the others to none.
fn by_bit(grid: &mut [u64], base: usize, i: usize)
    requires { (base + model_states ≤ length grid.old) × (i ≤ 5) }
    ensures { RowPut grid.old grid.new base (λ x. all_if_of (bit x i)) }
{
    set_row(grid, base, |x, _| all_if(bits::has(x as u64, i)));
}

// To all other states.
fn flip(grid: &mut [u64], base: usize)
    requires { base + model_states ≤ length grid.old }
    ensures { RowPut grid.old grid.new base (λ x. 2 ^ model_states - 1 - get_or grid.old (base + x) 0) }
{
    set_row(grid, base, |_, set| !set);
}

// The row at base and the one behind it become the row of the junction.
fn join_rows(grid: &mut [u64], base: usize, j: Junction)
    requires { base + model_states + model_states ≤ length grid.old }
    ensures { RowPut grid.old grid.new base (λ x. join_words_of j (get_or grid.old (base + x) 0) (get_or grid.old (base + model_states + x) 0)) }
{
    let (rows, behind) = grid.split_at_mut(base + STATES);
    set_row(rows, base, |x, set| join_words(j, set, behind[x]));
}

// The row of the formula that stands at `at`, from base on; the rows of its operands stand there and behind. The place after the formula.
pub fn rows_at(system: &[u8], at: usize, grid: &mut [u64], base: usize) -> usize
    requires { RowsRoom system.now at grid.old base }
    ensures { RowsAt system.now at grid.old grid.new base result }
{
    match kind_of(system[at]) {
        SystemKind::Nothing => at,
        SystemKind::Elsewhere => at,
        SystemKind::Next => {
            let body = at + 1;
            same(grid, base, variable(system[body]));
            body + 1
        }
        SystemKind::Plain(k) => match k {
            FormulaKind::Proposition => {
                let body = at + 1;
                by_bit(grid, base, system[body] as usize);
                body + 1
            }
            FormulaKind::Truth => {
                same(grid, base, !0);
                at + 1
            }
            FormulaKind::Falsity => {
                same(grid, base, 0);
                at + 1
            }
            FormulaKind::Not => {
                let end = rows_at(system, at + 1, grid, base);
                flip(grid, base);
                end
            }
            FormulaKind::Join(j) => {
                let m = rows_at(system, at + 1, grid, base);
                let end = rows_at(system, m, grid, base + STATES);
                join_rows(grid, base, j);
                end
            }
        },
    }
}
