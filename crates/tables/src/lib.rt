// Builds the table of a rule in place in a lent slice.
#![tactic(auto)]

ghost use Rattle.std.specs.Prelude.{◌≡◌, ◌≤◌, length};
ghost use Rattle.definitions.specs.Definition1.{Rule};
ghost use Rattle.rules.specs.Answer.{AcceptedAs};
ghost use Rattle.automata.specs.Table.{table_entries};
ghost use Rattle.tables.specs.Refusals.{number, place};
ghost use Rattle.tables.specs.Answer.{told, BuildRight, TableFor};
ghost use Rattle.tables.specs.declared.Refusal.TheVariants.{OfRule};

use automata::{STATES, TABLE_ENTRIES};
use definitions::numbers::SHORT_SLICE;
use rules::Known;

// Why no table is built.
#[derive(Clone, Copy, Debug, PartialEq, Eq)]
pub enum Refusal {
    // the rule's own
    OfRule(definitions::Refusal),
    // the slice is too short for a table
    ShortTable,
}

impl Refusal {
    // The refusal's number.
    pub fn number(self) -> u64
        ensures { result ≡ number self }
    {
        match self {
            Refusal::OfRule(x) => x.number(),
            Refusal::ShortTable => SHORT_SLICE,
        }
    }

    // The byte of the rule that it is about.
    pub fn place(self) -> usize
        ensures { result ≡ place self }
    {
        match self {
            Refusal::OfRule(x) => x.place(),
            Refusal::ShortTable => 0,
        }
    }
}

impl From<definitions::Refusal> for Refusal {
    ghost from_gives = { λ x r. r ≡ OfRule x };

    fn from(refusal: definitions::Refusal) -> Refusal {
        Refusal::OfRule(refusal)
    }
}

// What is known of a table that the slice begins with: what is known of its rule, and the set of its final states.
#[derive(Clone, Copy, Debug, PartialEq, Eq)]
pub struct Tabled {
    pub rule: Known,
    pub finals: u64,
}

// Builds the table of a rule that is accepted in a slice that is long enough, and answers the set of its final states.
pub fn build_accepted(rule: &[u8], table: &mut [u64]) -> u64
    requires { ((f : Rule) × AcceptedAs rule.now f) × (table_entries ≤ length table.old) }
    ensures { TableFor rule.now table.old table.new result }
{
    blocks::clear::clear(table, 0, STATES);
    let shape = blocks::fill::build_at(rule, 0, table, 0);
    shape.finals
}

// Builds the rule's table in the slice: any string of bytes and any slice have one answer, and a refusal leaves the slice as it was.
pub fn build(rule: &[u8], table: &mut [u64]) -> Result<Tabled, Refusal>
    ensures { BuildRight rule.now table.old table.new (told result) }
{
    let known = rules::read_rule(rule)?;
    if table.len() < TABLE_ENTRIES {
        return Err(Refusal::ShortTable);
    }
    let finals = build_accepted(rule, table);
    Ok(Tabled {
        rule: known,
        finals,
    })
}
