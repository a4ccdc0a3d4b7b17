// Takes a key back whose links are filed: the keys that they lead to are put in order, and the record is left without them.
// Helpers between crates, with what each asks of its caller.
#![tactic(auto)]

ghost use Rattle.std.specs.Prelude.{◌≡◌};
ghost use Rattle.operations.specs.TakeBack.{TakeBack};
ghost use Rattle.shared.specs.Refusal.{refusal, value};
ghost use Rattle.linked.specs.Linked.{Linked};

use filing::Cabinet;
use keyset::KeySet;
use shared::Refusal;

// Takes a key of a sound record back, whose links are filed. The key itself goes last, since it waits for all others that go.
pub fn take_linked(
    bytes: &mut [u8],
    key: u16,
    links: usize,
    cabinet: &mut Cabinet,
    row: &mut [u16],
) -> Result<usize, Refusal>
    requires { Linked bytes.old key cabinet.old links }
    ensures takes_back { TakeBack bytes.old key row.old (refusal result) (value result) bytes.new row.new }
    ensures kept { (cabinet.new.lower ≡ cabinet.old.lower) × (cabinet.new.latest ≡ cabinet.old.latest) }
{
    let mut set = KeySet::new();
    let waits = chains::reach(cabinet, key, &mut set);
    if row.len() <= waits {
        return Err(Refusal::ShortRow);
    }
    order::order(&set, waits, links, cabinet, row);
    row[waits] = key;
    set.add(key);
    keys::erase(bytes, &set);
    Ok(waits + 1)
}
