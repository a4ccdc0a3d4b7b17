// The verdict of a record of which the conditions 1 and 2 hold, over its columns: the lowest of the conditions 3 to 7 that fails.
// Helpers between crates, with what each asks of its caller.
#![tactic(auto)]

ghost use Rattle.std.specs.Prelude.{length};
ghost use Rattle.pairs.specs.Condition.{verdict};
ghost use Rattle.judge.specs.Judge.{Fair, Judged, Slotted, Decided, Room};

use cycles::Pair;
use lay::Sheet;
use pairs::{Columns, Condition};
use reader::NODES;
use verdict::{ordering, pairing};

// A number for each key that may stand in a record, and 0.
const SLOTS: usize = NODES + 1;

const NO_ROWS: Pair = Pair {
    first: 0,
    second: 0,
};

// The verdict of columns whose keys are small numbers, with room to work in. It returns early, since a choice as an expression would lose what
// the tests tell where its branches join.
fn weigh(
    columns: &Columns,
    rows: &mut [Pair],
    counters: &mut [u16],
    queue: &mut [u16],
) -> Option<Condition>
    requires slotted { Slotted (length rows.old) columns.now }
    requires room { Room rows.old (length counters.old) (length queue.old) }
    ensures { Decided (length rows.old) columns.now (verdict result) }
{
    let least = pairing(columns, rows);
    if least.is_some() || ordering(columns.ups, rows, counters, queue) {
        return least;
    }
    Some(Condition::Ordered)
}

// The verdict of columns whose keys are small numbers below `many`.
fn decide(columns: &Columns, many: usize) -> Option<Condition>
    requires { Slotted many columns.now }
    ensures { Decided many columns.now (verdict result) }
{
    let mut rows = [NO_ROWS; SLOTS];
    let mut counters = [0u16; SLOTS];
    let mut queue = [0u16; SLOTS];
    weigh(
        columns,
        &mut rows[..many],
        &mut counters[..many],
        &mut queue[..many],
    )
}

// The verdict of a readable record of which the conditions 1 and 2 hold. Its keys become small numbers.
pub fn judge(s: &[u8]) -> Option<Condition>
    requires { Fair s.now }
    ensures { Judged s.now (verdict result) }
{
    let mut sheet = Sheet::new();
    let rows = sheet.lay_all(s);
    let keys = &mut sheet.keys[..rows];
    let ups = &mut sheet.ups[..rows];
    let many = slots::number(keys, ups);
    let columns = Columns {
        keys,
        actions: &sheet.actions[..rows],
        ends: &sheet.ends[..rows],
        scopes: &sheet.scopes[..rows],
        ups,
    };
    decide(&columns, many)
}
