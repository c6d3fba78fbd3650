// The propositions that a formula which stands in the bytes names, whether or not they matter to its meaning.
ghost use Rattle.rules.specs.Places.{GoodFormula};
ghost use Rattle.rules.specs.Walks.{NamesAs};

use definitions::kinds::{FormulaKind, Kind, kind_of};

// The propositions that a formula names, bit i for proposition i, and the place after the formula.
#[derive(Drop)]
pub struct Names {
    pub uses: u64,
    pub end: usize,
}

// The propositions that the formula at `at` names.
pub fn names_at(rule: &[u8], at: usize) -> Names
    requires { GoodFormula rule.now at }
    ensures { NamesAs rule.now at result }
{
    let Kind::OfFormula(k) = kind_of(rule[at]) else {
        return Names { uses: 0, end: at };
    };
    match k {
        FormulaKind::Proposition => {
            let body = at + 1;
            Names {
                uses: bits::with(0, rule[body] as usize),
                end: body + 1,
            }
        }
        FormulaKind::Truth => Names {
            uses: 0,
            end: at + 1,
        },
        FormulaKind::Falsity => Names {
            uses: 0,
            end: at + 1,
        },
        FormulaKind::Not => names_at(rule, at + 1),
        FormulaKind::Join(_) => {
            let a = names_at(rule, at + 1);
            let m = a.end;
            let b = names_at(rule, m);
            Names {
                uses: a.uses | b.uses,
                end: b.end,
            }
        }
    }
}
