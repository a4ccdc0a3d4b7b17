// The conditions 3 to 6 of 01 (Soundness) on columns of numbers, a row for each prefix that holds a key.
// Helpers between crates, with what each asks of its caller.
#![tactic(auto)]

ghost use Rattle.std.specs.Prelude.{◌≡◌, ◌+◌, ◌<◌, length};
ghost use Rattle.causes.specs.Columns.{Below};
ghost use Rattle.cycles.specs.Pair.{firsts, seconds};
ghost use Rattle.pairs.specs.Condition.{number_of, lower};
ghost use Rattle.pairs.specs.Cause.{Alike, Placed, EachPlaced, CauseAt, CauseBelow};
ghost use Rattle.pairs.specs.Answer.{Zero, Entered, Index, above, Climbed};

use cycles::Pair;
use shared::complementary;

// The conditions of soundness (01, Soundness), each with its number there.
#[derive(Clone, Copy, PartialEq, Eq, PartialOrd, Ord)]
pub enum Condition {
    // Nothing below a prefix with key 0 holds a key.
    Waiting = 1,
    // At most one side of a choice holds keys.
    Choosing = 2,
    // A key stands in at most two rows.
    Twice = 3,
    // Two rows of a key have complementary actions.
    Complementary = 4,
    // Of two rows of a key none stands below the other.
    Apart = 5,
    // The only row of a key stands in no scope, two rows in the same.
    Hidden = 6,
    // Going up from key to key never leads back.
    Ordered = 7,
}

impl From<Condition> for u8 {
    ghost from_gives = { λ c n. n ≡ number_of c };

    fn from(c: Condition) -> u8 {
        c as u8
    }
}

// A record in columns, with a place in each for a row: its key, its action, the row that follows all below it, its scope, and the key right
// above it.
#[derive(Clone, Copy)]
pub struct Columns<'a> {
    pub keys: &'a [u16],
    pub actions: &'a [u8],
    pub ends: &'a [u16],
    pub scopes: &'a [u16],
    pub ups: &'a [u16],
}

// Notes that a key stands in the row; false if two rows before it do.
fn enter(row: u16, rows: &mut Pair) -> bool
    requires { row < 65535 }
    ensures { Entered row rows.old.first rows.old.second rows.new.first rows.new.second result }
{
    if rows.first == 0 {
        rows.first = row + 1;
        return true;
    }
    if rows.second != 0 {
        return false;
    }
    rows.second = row + 1;
    true
}

// For each key the rows that hold it, one higher; false if a key stands in three rows.
pub fn index(keys: &[u16], rows: &mut [Pair]) -> bool
    requires below { Below (length rows.old) keys.now }
    requires few { length keys.now < 65535 }
    requires zero { Zero (firsts rows.old) × Zero (seconds rows.old) }
    ensures { Index keys.now (firsts rows.new) (seconds rows.new) result }
{
    for (row, key) in keys.iter().enumerate() {
        if !enter(row as u16, &mut rows[usize::from(*key)]) {
            return false;
        }
    }
    true
}

// The lowest of the conditions 4 to 6 that fails for a key that stands in these rows, each one higher.
fn cause(rows: Pair, columns: &Columns) -> Option<Condition>
    requires placed { Placed (length columns.now.actions.now) rows.first rows.second }
    requires long { Alike columns.now }
    ensures { CauseAt columns.now.actions.now columns.now.ends.now columns.now.scopes.now rows.first rows.second result }
{
    if rows.first == 0 {
        return None;
    }
    let i = usize::from(rows.first) - 1;
    let scope = columns.scopes[i];
    if rows.second == 0 {
        return if scope == 0 {
            None
        } else {
            Some(Condition::Hidden)
        };
    }
    let j = usize::from(rows.second) - 1;
    if !complementary(columns.actions[i], columns.actions[j]) {
        Some(Condition::Complementary)
    } else if j < usize::from(columns.ends[i]) {
        Some(Condition::Apart)
    } else if scope == columns.scopes[j] {
        None
    } else {
        Some(Condition::Hidden)
    }
}

// The lower of two conditions, or the one that there is.
fn lower(a: Option<Condition>, b: Option<Condition>) -> Option<Condition>
    ensures { result ≡ lower a b }
{
    match (a, b) {
        (Some(x), Some(y)) => Some(x.min(y)),
        (None, c) => c,
        (c, None) => c,
    }
}

// The lowest of the conditions 4 to 6 that fails for some key of the index.
pub fn causes(rows: &[Pair], columns: &Columns) -> Option<Condition>
    requires placed { EachPlaced (length columns.now.actions.now) (firsts rows.now) (seconds rows.now) }
    requires long { Alike columns.now }
    ensures { CauseBelow (length rows.now) columns.now.actions.now columns.now.ends.now columns.now.scopes.now (firsts rows.now) (seconds rows.now) result }
{
    let mut least = None;
    for two in rows {
        least = lower(least, cause(*two, columns));
    }
    least
}

// The key right above a row that is given one higher; 0 where there is no row.
fn above(row: u16, ups: &[u16]) -> u16
    requires { row < length ups.now + 1 }
    ensures { result ≡ above ups.now row }
{
    if row == 0 {
        0
    } else {
        ups[usize::from(row) - 1]
    }
}

// Each row, one higher, becomes the key right above it; where there is no row stays 0.
pub fn climb(ups: &[u16], rows: &mut [Pair])
    requires { Below (length ups.now + 1) (firsts rows.old) × Below (length ups.now + 1) (seconds rows.old) }
    ensures { Climbed ups.now (firsts rows.old) (firsts rows.new) × Climbed ups.now (seconds rows.old) (seconds rows.new) }
{
    for two in rows {
        two.first = above(two.first, ups);
        two.second = above(two.second, ups);
    }
}
