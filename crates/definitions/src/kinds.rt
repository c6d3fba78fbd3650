// What a kind byte says: the house form's table of kinds, grouped by what follows the byte.
ghost use Rattle.std.specs.Prelude.{◌≡◌};
ghost use Rattle.definitions.specs.Kinds.{kind_of};
ghost use Rattle.definitions.specs.Encoding.{junction_byte, pair_byte, repeat_byte};

// The connectives of two formulas.
#[derive(Clone, Copy, Debug, PartialEq, Eq)]
pub enum Junction {
    And,
    Or,
}

#[derive(Clone, Copy, Debug, PartialEq, Eq)]
pub enum FormulaKind {
    Proposition,
    Truth,
    Falsity,
    Not,
    Join(Junction),
}

// The operators of two rules: `;` `:` `|` `&` `&&`.
#[derive(Clone, Copy, Debug, PartialEq, Eq)]
pub enum Pair {
    Then,
    Overlap,
    Either,
    Within,
    Both,
}

// The operators of one rule: `[*]` `[+]`.
#[derive(Clone, Copy, Debug, PartialEq, Eq)]
pub enum Repeat {
    Star,
    Plus,
}

// Beside these: `[*i..j]` and `[=i..j]`, whose two counts follow the kind byte.
#[derive(Clone, Copy, Debug, PartialEq, Eq)]
pub enum RuleKind {
    Letter,
    Empty,
    Two(Pair),
    Again(Repeat),
    Counted,
    Occurs,
}

#[derive(Clone, Copy, Debug, PartialEq, Eq)]
pub enum Kind {
    OfFormula(FormulaKind),
    OfRule(RuleKind),
    Unknown,
}

impl Junction {
    // Its kind byte.
    pub fn byte(self) -> u8
        ensures { result ≡ junction_byte self }
    {
        match self {
            Junction::And => 0x05,
            Junction::Or => 0x06,
        }
    }
}

impl Pair {
    // Its kind byte.
    pub fn byte(self) -> u8
        ensures { result ≡ pair_byte self }
    {
        match self {
            Pair::Then => 0x12,
            Pair::Overlap => 0x13,
            Pair::Either => 0x14,
            Pair::Within => 0x15,
            Pair::Both => 0x16,
        }
    }
}

impl Repeat {
    // Its kind byte.
    pub fn byte(self) -> u8
        ensures { result ≡ repeat_byte self }
    {
        match self {
            Repeat::Star => 0x17,
            Repeat::Plus => 0x18,
        }
    }
}

// The kind that a byte stands for; no row of the table has it: unknown.
pub fn kind_of(byte: u8) -> Kind
    ensures { result ≡ kind_of byte }
{
    match byte {
        0x01 => Kind::OfFormula(FormulaKind::Proposition),
        0x02 => Kind::OfFormula(FormulaKind::Truth),
        0x03 => Kind::OfFormula(FormulaKind::Falsity),
        0x04 => Kind::OfFormula(FormulaKind::Not),
        0x05 => Kind::OfFormula(FormulaKind::Join(Junction::And)),
        0x06 => Kind::OfFormula(FormulaKind::Join(Junction::Or)),
        0x10 => Kind::OfRule(RuleKind::Letter),
        0x11 => Kind::OfRule(RuleKind::Empty),
        0x12 => Kind::OfRule(RuleKind::Two(Pair::Then)),
        0x13 => Kind::OfRule(RuleKind::Two(Pair::Overlap)),
        0x14 => Kind::OfRule(RuleKind::Two(Pair::Either)),
        0x15 => Kind::OfRule(RuleKind::Two(Pair::Within)),
        0x16 => Kind::OfRule(RuleKind::Two(Pair::Both)),
        0x17 => Kind::OfRule(RuleKind::Again(Repeat::Star)),
        0x18 => Kind::OfRule(RuleKind::Again(Repeat::Plus)),
        0x19 => Kind::OfRule(RuleKind::Counted),
        0x1A => Kind::OfRule(RuleKind::Occurs),
        _ => Kind::Unknown,
    }
}
