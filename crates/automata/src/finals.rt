// Sets of final states: an operator's from its operands'. a's states stand first, m of them; b has n.
ghost use Rattle.std.specs.Prelude.{◌≡◌, ◌+◌, ◌*◌, ◌/◌, ◌%◌, ◌<◌, ◌≤◌};
ghost use Rattle.definitions.specs.Definition1.{Rule, two};
ghost use Rattle.definitions.specs.declared.kinds.Pair.TheVariants.{Then, Either, Within, Both};
ghost use Rattle.rules.specs.Weight.{weight_of};
ghost use Rattle.automata.specs.inner.Block.{FinalsAt};
ghost use Rattle.automata.specs.inner.Sets.{Raised, pair_final_of};
ghost use Rattle.automata.specs.Table.{table_states};

use bits::those::those;

// Both states of `true[*]` are final.
const ANY_FINALS: u64 = 3;

// The set with each state moved up by k.
pub fn raise(set: u64, k: usize) -> u64
    requires { k < table_states }
    ensures { Raised set k result }
{
    set << k
}

// `;`: b's, and a's too if b's state 0 is final.
pub fn then_finals(a: u64, b: u64, m: usize) -> u64
    requires { m < table_states }
    ensures { (x y : Rule) → m ≡ weight_of x → FinalsAt a 0 x → FinalsAt b 0 y → FinalsAt result 0 (two Then x y) }
{
    let moved = raise(b, m);
    if bits::has(moved, m) {
        return a | moved;
    }
    moved
}

// `|`: both, and the new state 0 if either 0 was final.
pub fn either_finals(a: u64, b: u64, m: usize) -> u64
    requires { 1 + m < table_states }
    ensures { (x y : Rule) → m ≡ weight_of x → FinalsAt a 0 x → FinalsAt b 0 y → FinalsAt result 0 (two Either x y) }
{
    let first = raise(a, 1);
    let second = raise(b, 1 + m);
    if bits::has(first, 1) || bits::has(second, 1 + m) {
        return bits::with(first | second, 0);
    }
    first | second
}

// Whether both states of the pair q are final.
fn pair_final(a: u64, b: u64, n: usize, q: usize) -> bool
    requires { (0 < n) × (q < table_states) }
    ensures { result ≡ pair_final_of a b n q }
{
    bits::has(a, q / n) && bits::has(b, q % n)
}

// `&&`: the pairs of finals. w is m * n.
pub fn both_finals(a: u64, b: u64, n: usize, w: usize) -> u64
    requires { (0 < n) × (w ≤ table_states) }
    ensures { (x y : Rule) → n ≡ weight_of y → w ≡ weight_of x * weight_of y → FinalsAt a 0 x → FinalsAt b 0 y → FinalsAt result 0 (two Both x y) }
{
    those(w, |q| pair_final(a, b, n, q))
}

// `&`, which is {a && {b;true[*]}} | {{a;true[*]} && b}.
pub fn within_finals(a: u64, b: u64, m: usize, n: usize) -> u64
    requires { (0 < m) × (0 < n) × (2 * (m * n) + 2 * m + 2 * n + 1 ≤ table_states) }
    ensures { (x y : Rule) → m ≡ weight_of x → n ≡ weight_of y → FinalsAt a 0 x → FinalsAt b 0 y → FinalsAt result 0 (two Within x y) }
{
    let left = m * (n + 2);
    let first = both_finals(a, then_finals(b, ANY_FINALS, n), n + 2, left);
    let second = both_finals(then_finals(a, ANY_FINALS, m), b, n, (m + 2) * n);
    either_finals(first, second, left)
}
