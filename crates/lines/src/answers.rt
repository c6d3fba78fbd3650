// What a search comes to, written from the beginning of a slice on; the answer is the text's length.
ghost use Rattle.std.specs.Prelude.{◌+◌, ◌*◌, ◌<◌, ◌≤◌, ◌++◌, length, take};
ghost use Rattle.rules.specs.Named.{proposition_count};
ghost use Rattle.search.specs.Answer.{given_length, told};
ghost use Rattle.passes.specs.Told.{answer_of};
ghost use Rattle.lines.specs.Text.{colon, entry_text, states_text, found_text, none_text, searched_text, member_text, members_text, set_text, uses_text, text_of};
ghost use Rattle.writing.specs.Wrote.{Wrote};
ghost use Rattle.lines.specs.Room.{line_room, uses_room, shown_length, LineFits};

use passes::inner::Searched;
use search::{Answered, Refusal};
use writing::{put_byte, put_named, put_number, put_refused, put_word};

const BLANK: u8 = 32;

const FOUND: [u8; 6] = *b"found ";

const PAIRS: [u8; 7] = *b" pairs ";

const COLON: u8 = 58;

const NONE_PAIRS: [u8; 11] = *b"none pairs ";

const USES: [u8; 5] = *b" uses";

const NO_MEMBER: [u8; 2] = *b" -";

const PROPOSITION_COUNT: u8 = 6;

// A number of a list, a blank before it.
fn put_entry(out: &mut [u8], at: usize, number: u8) -> usize
    requires { at + length (entry_text number) ≤ length out.old }
    ensures { Wrote (entry_text number) out.old at out.new result }
{
    let past = put_byte(out, at, BLANK);
    put_number(out, past, number as u64)
}

// The states of a run.
fn put_states(out: &mut [u8], at: usize, run: &[u8]) -> usize
    requires { at + length (states_text run.now) ≤ length out.old }
    ensures { Wrote (states_text run.now) out.old at out.new result }
{
    let mut end = at;
    for &state in run {
        end = put_entry(out, end, state);
    }
    end
}

// A colon, and the run.
fn put_run(out: &mut [u8], at: usize, run: &[u8]) -> usize
    requires { at + length (colon ++ states_text run.now) ≤ length out.old }
    ensures { Wrote (colon ++ states_text run.now) out.old at out.new result }
{
    let past = put_byte(out, at, COLON);
    put_states(out, past, run)
}

fn put_found(out: &mut [u8], run: &[u8], pairs: usize) -> usize
    requires { length (found_text (length run.now) run.now pairs) ≤ length out.old }
    ensures { Wrote (found_text (length run.now) run.now pairs) out.old 0 out.new result }
{
    let counted = put_named(out, 0, &FOUND, run.len() as u64);
    let shown = put_named(out, counted, &PAIRS, pairs as u64);
    put_run(out, shown, run)
}

fn put_none(out: &mut [u8], pairs: usize) -> usize
    requires { length (none_text pairs) ≤ length out.old }
    ensures { Wrote (none_text pairs) out.old 0 out.new result }
{
    put_named(out, 0, &NONE_PAIRS, pairs as u64)
}

// What was found, with room after it for what the rule names.
fn put_searched(out: &mut [u8], searched: Searched, run: &[u8]) -> usize
    requires { LineFits (given_length searched) run.now out.old }
    ensures { Wrote (searched_text (given_length searched) (answer_of searched run.now)) out.old 0 out.new result × (result + uses_room ≤ line_room) }
{
    let pairs = searched.pairs;
    match searched.found {
        Some(long) => put_found(out, &run[..long], pairs),
        None => put_none(out, pairs),
    }
}

// Proposition i, if the set has it.
fn put_member(out: &mut [u8], at: usize, uses: u64, i: u8) -> usize
    requires { (i < proposition_count) × (at + length (member_text uses i) ≤ length out.old) }
    ensures { Wrote (member_text uses i) out.old at out.new result }
{
    if bits::has(uses, i as usize) {
        return put_entry(out, at, i);
    }
    at
}

// The propositions of a set, in rising order.
fn put_members(out: &mut [u8], at: usize, uses: u64) -> usize
    requires { at + 2 * proposition_count ≤ length out.old }
    ensures { Wrote (members_text proposition_count uses) out.old at out.new result }
{
    let mut end = at;
    for number in 0..PROPOSITION_COUNT {
        end = put_member(out, end, uses, number);
    }
    end
}

// The set, or that it has no member.
fn put_set(out: &mut [u8], at: usize, uses: u64) -> usize
    requires { at + 2 * proposition_count ≤ length out.old }
    ensures { Wrote (set_text uses) out.old at out.new result }
{
    if uses == 0 {
        return put_word(out, at, &NO_MEMBER);
    }
    put_members(out, at, uses)
}

// What the rule names.
fn put_uses(out: &mut [u8], at: usize, uses: u64) -> usize
    requires { at + uses_room ≤ length out.old }
    ensures { Wrote (uses_text uses) out.old at out.new result }
{
    let past = put_word(out, at, &USES);
    put_set(out, past, uses)
}

pub fn put_answer(out: &mut [u8], answer: Result<Answered, Refusal>, run: &[u8]) -> usize
    requires { LineFits (shown_length answer) run.now out.old }
    ensures { Wrote (text_of (told answer run.now)) out.old 0 out.new result }
{
    match answer {
        Ok(a) => {
            let past = put_searched(out, a.searched, run);
            put_uses(out, past, a.rule.uses)
        }
        Err(x) => put_refused(out, x.number(), x.place()),
    }
}
