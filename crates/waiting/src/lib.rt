// Waiting list of a key (02, [5]): which keys must be undone before it.
#![tactic(auto)]

ghost use Rattle.std.specs.Prelude.{List, ℕ, ◌<◌};
ghost use Rattle.operations.specs.Ask.{WaitingList};
ghost use Rattle.shared.specs.Refusal.{refusal, value};
ghost use Rattle.filing.specs.Cabinet.{Filed};
ghost use Rattle.waiting.specs.Listed.{ToKeys, Listed};

use filing::Cabinet;
use keyset::KeySet;
use shared::{Key, Refusal};

// The keys that filed links lead to from a key, ascending, to the front of the row.
fn list_reached(key: u16, cabinet: &Cabinet, row: &mut [u16]) -> Result<usize, Refusal>
    requires filed { Filed cabinet.now }
    requires to_keys { ToKeys cabinet.now }
    ensures { Listed cabinet.now key row.old (refusal result) (value result) row.new }
{
    let mut set = KeySet::new();
    let many = chains::reach(cabinet, key, &mut set);
    rows::fill(&set, many, row)
}

// The waiting list of a key that is not 0.
fn list_waiting(bytes: &[u8], key: u16, row: &mut [u16]) -> Result<usize, Refusal>
    requires { 0 < key }
    ensures { WaitingList bytes.now key row.old (refusal result) (value result) row.new }
{
    let mut cabinet = Cabinet::new();
    match cabinet.file_all(bytes, key)? {
        None => Err(Refusal::KeyAbsent),
        Some(_) => list_reached(key, &cabinet, row),
    }
}

// Key 0 is refused, unless the bytes are no record: that refusal comes first.
fn refuse_zero(bytes: &[u8]) -> Result<usize, Refusal>
    ensures { (row : List ℕ) → WaitingList bytes.now 0 row (refusal result) (value result) row }
{
    reader::read(bytes)?;
    Err(Refusal::KeyZero)
}

// The keys other than `key` that a chain leads to from it, each link from a key to one below its prefixes, ascending, to the front of the row.
pub fn waiting(bytes: &[u8], key: Key, row: &mut [u16]) -> Result<usize, Refusal>
    ensures { WaitingList bytes.now key.0 row.old (refusal result) (value result) row.new }
{
    let k = key.0;
    if k == 0 {
        refuse_zero(bytes)
    } else {
        list_waiting(bytes, k, row)
    }
}
