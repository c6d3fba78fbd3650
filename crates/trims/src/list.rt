// The members of a set, in rising order, in a lent slice.
ghost use Rattle.std.specs.Prelude.{◌≤◌, length};
ghost use Rattle.automata.specs.Table.{table_states};
ghost use Rattle.trims.specs.inner.Lists.{Lists};

use bits::rising::members;

// Lists all members, and says how many there are.
pub fn list(from: &mut [usize], set: u64) -> usize
    requires { table_states ≤ length from.old }
    ensures { Lists from.new set result }
{
    let mut n: usize = 0;
    for q in members(set) {
        from[n] = q;
        n += 1;
    }
    n
}
