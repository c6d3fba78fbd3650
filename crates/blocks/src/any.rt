// `true[*]`, whose table `&` puts behind its operands.
ghost use Rattle.std.specs.Prelude.{List, ◌≡◌, ℕ, ◌+◌, ◌*◌, ◌≤◌, length};
ghost use Rattle.bits.specs.Word.{all};
ghost use Rattle.definitions.specs.Definition1.{Rule, two};
ghost use Rattle.rules.specs.Weight.{weight_of};
ghost use Rattle.definitions.specs.declared.kinds.Pair.TheVariants.{Then};
ghost use Rattle.automata.specs.inner.Block.{FinalsAt, Built, any_rule};
ghost use Rattle.automata.specs.inner.Cells.{Put, Clean};
ghost use Rattle.automata.specs.Table.{table_states};
ghost use Rattle.definitions.specs.Definition2.{letter_count};

use crate::link::link;
use crate::span::Span;
use automata::cells::put;
use formulas::LETTER_COUNT;

// The two states at base and base + 1: every letter leads from either to the second.
pub fn any(t: &mut [u64], base: usize)
    requires { (table_states * (base + 2) ≤ length t.old) × (base + 2 ≤ table_states) }
    ensures { Put t.old t.new base (base + 2) (base + 1) (base + 2) (λ p q. all letter_count) }
{
    let every = bits::below(LETTER_COUNT);
    put(t, base, base + 1, every);
    put(t, base + 1, base + 1, every);
}

// Behind the block of n states at base, whose finals are given, stands `true[*]`: the two together are {a;true[*]}.
pub fn pad(t: &mut [u64], base: usize, n: usize, finals: u64)
    requires { (table_states * (base + n + 2) ≤ length t.old) × (base + n + 2 ≤ table_states) }
    ensures { (t₀ : List ℕ) (x : Rule) → Clean t₀ base → n ≡ weight_of x → FinalsAt finals base x → Built t₀ t.old base x → Built t₀ t.new base (two Then x any_rule) }
{
    let mid = base + n;
    any(t, mid);
    let behind = Span {
        first: mid,
        end: mid + 2,
    };
    link(t, base, mid, behind, finals);
}
