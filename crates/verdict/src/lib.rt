// The conditions 3 to 7 of 01 (Soundness) on columns of rows, a row for each prefix that holds a key, under small names for the keys.
// Helpers between crates, with what each asks of its caller.
#![tactic(auto)]

ghost use Rattle.std.specs.Prelude.{◌≡◌, ◌≤◌, length};
ghost use Rattle.cycles.specs.Pair.{firsts, seconds};
ghost use Rattle.verdict.specs.Sheet.{Blank, Pairing, Noted, Ordering};

use cycles::{Pair, acyclic};
use pairs::{Columns, Condition, causes, climb, index};

// The lowest of the conditions 3 to 6 that fails; unless it is 3, the rows of each key are noted.
pub fn pairing(columns: &Columns, rows: &mut [Pair]) -> Option<Condition>
    requires { Blank columns.now rows.old }
    ensures { Pairing columns.now rows.new result }
{
    if index(columns.keys, rows) {
        causes(rows, columns)
    } else {
        Some(Condition::Twice)
    }
}

// Condition 7, from the noted rows of each key. The counters and the queue are room to work in.
pub fn ordering(ups: &[u16], rows: &mut [Pair], counters: &mut [u16], queue: &mut [u16]) -> bool
    requires noted { Noted ups.now (firsts rows.old) (seconds rows.old) }
    requires counters_len { length counters.old ≡ length rows.old }
    requires first_in_bounds { length rows.old ≤ length queue.old }
    ensures { Ordering ups.now (firsts rows.old) (seconds rows.old) (firsts rows.new) (seconds rows.new) result }
{
    climb(ups, rows);
    acyclic(rows, counters, queue)
}
