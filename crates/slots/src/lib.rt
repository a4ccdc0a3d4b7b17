// Small numbers for the keys of columns: a key becomes one more than its rank among the keys, and 0 stays 0.
// Helpers between crates, with what each asks of its caller.
#![tactic(auto)]

ghost use Rattle.std.specs.Prelude.{◌≡◌, ◌≢◌, true, ◌<◌};
ghost use Rattle.keyset.specs.Set.{member};
ghost use Rattle.rank.specs.Rank.{rank};
ghost use Rattle.slots.specs.Slot.{slot, KeysIn, Renamed, Numberable, Numbered};

use keys::mark_all;
use keyset::{BYTES, KeySet};
use rank::Ranking;
use shared::NOT_DONE;

// The small number of a key of the set.
fn slot(key: u16, ranks: &Ranking) -> u16
    requires few { rank ranks.now.set.now.bytes 65536 < 65535 }
    requires key_value { key ≢ 0 → member ranks.now.set.now.bytes key ≡ true }
    ensures { result ≡ slot ranks.now.set.now.bytes key }
{
    if key == NOT_DONE {
        NOT_DONE
    } else {
        (ranks.rank(key) + 1) as u16
    }
}

// Each number of a column becomes its small number.
fn rename(column: &mut [u16], ranks: &Ranking)
    requires few { rank ranks.now.set.now.bytes 65536 < 65535 }
    requires keys_in { KeysIn ranks.now.set.now.bytes column.old }
    ensures { Renamed (slot ranks.now.set.now.bytes) column.old column.new }
{
    for key in column {
        *key = slot(*key, ranks);
    }
}

// Small numbers for the keys, and for the keys right above; answers a number above all of them. Ranks are written down only as far as the
// keys go.
pub fn number(keys: &mut [u16], ups: &mut [u16]) -> usize
    requires { Numberable keys.old ups.old }
    ensures { Numbered keys.old ups.old keys.new ups.new result }
{
    let mut marks = KeySet::new();
    let mut base = [0u16; BYTES];
    let many = mark_all(keys, &mut marks);
    let ranks = Ranking::of(&marks, many, &mut base);
    rename(keys, &ranks);
    rename(ups, &ranks);
    many + 1
}
