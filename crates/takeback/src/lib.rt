// Takes a key back with everything that stands on it (02, [6]): each time the least key still to go whose undo is allowed.
#![tactic(auto)]

ghost use Rattle.std.specs.Prelude.{◌<◌};
ghost use Rattle.operations.specs.Ask.{Soundness};
ghost use Rattle.operations.specs.TakeBack.{TakeBack};
ghost use Rattle.shared.specs.Refusal.{refusal, value};

use filing::Cabinet;
use linked::take_linked;
use shared::{Key, Refusal};

// Takes a key that is not 0 back, of a sound record. It has all but its last step from `list_waiting` of waiting: one function for both would
// take that step as a closure, and be longer.
fn take_sound(bytes: &mut [u8], key: u16, row: &mut [u16]) -> Result<usize, Refusal>
    requires { (0 < key) × Soundness bytes.old 0 0 }
    ensures { TakeBack bytes.old key row.old (refusal result) (value result) bytes.new row.new }
{
    let mut cabinet = Cabinet::new();
    match cabinet.file_all(bytes, key)? {
        None => Err(Refusal::KeyAbsent),
        Some(links) => take_linked(bytes, key, links, &mut cabinet, row),
    }
}

// Takes the key back with the keys of its waiting list, of a sound record. Writes them to the front of the row, in the order in which they go,
// and answers how many.
pub fn take_back(bytes: &mut [u8], key: Key, row: &mut [u16]) -> Result<usize, Refusal>
    ensures { TakeBack bytes.old key.0 row.old (refusal result) (value result) bytes.new row.new }
{
    let k = key.0;
    let verdict = soundness::verdict(bytes)?;
    if k == 0 {
        return Err(Refusal::KeyZero);
    }
    if verdict != 0 {
        return Err(Refusal::NotSound);
    }
    take_sound(bytes, k, row)
}
