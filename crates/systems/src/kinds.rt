// What a kind byte says in a system: the rules' table of kinds, and three of its own.
ghost use Rattle.std.specs.Prelude.{◌≡◌};
ghost use Rattle.systems.specs.Kinds.{kind_of};

use definitions::kinds::{FormulaKind, Kind};

#[derive(Clone, Copy, Debug, PartialEq, Eq)]
pub enum SystemKind {
    // a formula's, in both formulas
    Plain(FormulaKind),
    // a variable of the next state
    Next,
    // a rule's, or one of the two marks
    Elsewhere,
    Nothing,
}

// What a kind of the rules' table is here.
impl From<Kind> for SystemKind {
    ghost use Rattle.std.specs.Prelude.{◌≡◌};
    ghost use Rattle.systems.specs.Kinds.{of_rules_of};

    ghost from_gives = { λ kind s. s ≡ of_rules_of kind };

    fn from(kind: Kind) -> SystemKind {
        match kind {
            Kind::OfFormula(k) => SystemKind::Plain(k),
            Kind::OfRule(_) => SystemKind::Elsewhere,
            Kind::Unknown => SystemKind::Nothing,
        }
    }
}

pub fn kind_of(byte: u8) -> SystemKind
    ensures { result ≡ kind_of byte }
{
    match byte {
        0x07 => SystemKind::Next,
        0x30 => SystemKind::Elsewhere,
        0x31 => SystemKind::Elsewhere,
        _ => SystemKind::from(definitions::kinds::kind_of(byte)),
    }
}
