// The text of a formula or of a rule that stands in the bytes, written from a place on.
ghost use Rattle.std.specs.Prelude.{◌+◌, ◌*◌, ◌≤◌, [], ◌∷◌, length};
ghost use Rattle.rules.specs.Places.{GoodFormula, GoodRule};
ghost use Rattle.definitions.specs.Encoding.{CountsFit};
ghost use Rattle.grammar.specs.Text.{digit_char, pair_sign, junction_char, repeat_char, counts_text};
ghost use Rattle.writing.specs.Wrote.{Wrote};
ghost use Rattle.text_writer.specs.inner.Walks.{FormulaPut, RulePut};

use definitions::counts::{Counts, counts_at};
use definitions::kinds::{FormulaKind, Junction, Kind, Pair, Repeat, RuleKind, kind_of};
use writing::{put_byte, put_number, put_word};

const TRUE: [u8; 4] = *b"true";

const FALSE: [u8; 5] = *b"false";

const EMPTY: [u8; 4] = *b"[*0]";

const BOTH: [u8; 2] = *b"&&";

const STAR: [u8; 4] = *b"}[*]";

const PLUS: [u8; 4] = *b"}[+]";

// What stands before and between the counts.
const PARTS: [u8; 3] = *b"}[*";

const LETTERS: [u8; 2] = *b"[=";

const DOTS: [u8; 2] = *b"..";

// The place after what stands in the bytes, and the place after its text.
#[derive(Drop)]
pub struct Put {
    pub end: usize,
    pub past: usize,
}

// `p` and the digit of a proposition.
fn put_proposition(out: &mut [u8], to: usize, number: u8) -> usize
    requires { (number ≤ 5) × (to + 2 ≤ length out.old) }
    ensures { Wrote (112 ∷ digit_char number ∷ []) out.old to out.new result }
{
    let past = put_byte(out, to, b'p');
    put_byte(out, past, b'0' + number)
}

fn put_junction(out: &mut [u8], to: usize, j: Junction) -> usize
    requires { to + 1 ≤ length out.old }
    ensures { Wrote (junction_char j ∷ []) out.old to out.new result }
{
    match j {
        Junction::And => put_byte(out, to, b'&'),
        Junction::Or => put_byte(out, to, b'|'),
    }
}

fn put_pair(out: &mut [u8], to: usize, p: Pair) -> usize
    requires { to + 2 ≤ length out.old }
    ensures { Wrote (pair_sign p) out.old to out.new result }
{
    match p {
        Pair::Then => put_byte(out, to, b';'),
        Pair::Overlap => put_byte(out, to, b':'),
        Pair::Either => put_byte(out, to, b'|'),
        Pair::Within => put_byte(out, to, b'&'),
        Pair::Both => put_word(out, to, &BOTH),
    }
}

// What follows the operand of a repetition.
fn put_repeat(out: &mut [u8], to: usize, p: Repeat) -> usize
    requires { to + 4 ≤ length out.old }
    ensures { Wrote (125 ∷ 91 ∷ repeat_char p ∷ 93 ∷ []) out.old to out.new result }
{
    match p {
        Repeat::Star => put_word(out, to, &STAR),
        Repeat::Plus => put_word(out, to, &PLUS),
    }
}

// Both counts and what closes them.
fn put_counts(out: &mut [u8], to: usize, counts: Counts) -> usize
    requires { CountsFit counts.low counts.high × (to + 7 ≤ length out.old) }
    ensures { Wrote (counts_text counts.low counts.high) out.old to out.new result }
{
    let low = put_number(out, to, counts.low as u64);
    let dots = put_word(out, low, &DOTS);
    let high = put_number(out, dots, counts.high as u64);
    put_byte(out, high, b']')
}

// The text of the formula that stands at `at`.
pub fn put_formula(rule: &[u8], at: usize, out: &mut [u8], to: usize) -> Put
    requires { GoodFormula rule.now at × (to + 5 * length rule.now ≤ length out.old + 5 * at) }
    ensures { FormulaPut rule.now at out.old to out.new result }
{
    let Kind::OfFormula(k) = kind_of(rule[at]) else {
        return Put { end: at, past: to };
    };
    match k {
        FormulaKind::Proposition => {
            let past = put_proposition(out, to, rule[at + 1]);
            Put { end: at + 2, past }
        }
        FormulaKind::Truth => {
            let past = put_word(out, to, &TRUE);
            Put { end: at + 1, past }
        }
        FormulaKind::Falsity => {
            let past = put_word(out, to, &FALSE);
            Put { end: at + 1, past }
        }
        FormulaKind::Not => {
            let past = put_byte(out, to, b'!');
            put_formula(rule, at + 1, out, past)
        }
        FormulaKind::Join(j) => {
            let open = put_byte(out, to, b'(');
            let a = put_formula(rule, at + 1, out, open);
            let m = a.end;
            let sign = put_junction(out, a.past, j);
            let b = put_formula(rule, m, out, sign);
            let past = put_byte(out, b.past, b')');
            Put { end: b.end, past }
        }
    }
}

// The text of the rule that stands at `at`.
pub fn put_rule(rule: &[u8], at: usize, out: &mut [u8], to: usize) -> Put
    requires { GoodRule rule.now at × (to + 5 * length rule.now ≤ length out.old + 5 * at) }
    ensures { RulePut rule.now at out.old to out.new result }
{
    let Kind::OfRule(k) = kind_of(rule[at]) else {
        return Put { end: at, past: to };
    };
    match k {
        RuleKind::Letter => put_formula(rule, at + 1, out, to),
        RuleKind::Empty => {
            let past = put_word(out, to, &EMPTY);
            Put { end: at + 1, past }
        }
        RuleKind::Two(p) => {
            let open = put_byte(out, to, b'{');
            let a = put_rule(rule, at + 1, out, open);
            let m = a.end;
            let sign = put_pair(out, a.past, p);
            let b = put_rule(rule, m, out, sign);
            let past = put_byte(out, b.past, b'}');
            Put { end: b.end, past }
        }
        RuleKind::Again(p) => {
            let open = put_byte(out, to, b'{');
            let a = put_rule(rule, at + 1, out, open);
            let past = put_repeat(out, a.past, p);
            Put { end: a.end, past }
        }
        RuleKind::Counted => {
            let open = put_byte(out, to, b'{');
            let a = put_rule(rule, at + 3, out, open);
            let sign = put_word(out, a.past, &PARTS);
            let past = put_counts(out, sign, counts_at(rule, at));
            Put { end: a.end, past }
        }
        RuleKind::Occurs => {
            let f = put_formula(rule, at + 3, out, to);
            let sign = put_word(out, f.past, &LETTERS);
            let past = put_counts(out, sign, counts_at(rule, at));
            Put { end: f.end, past }
        }
    }
}
