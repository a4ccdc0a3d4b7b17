// Lent rows of keys (01, Operations and their refusals): a set of keys goes to the front of a row, ascending.
#![tactic(auto)]

ghost use Rattle.std.specs.Prelude.{◌≡◌, length};
ghost use Rattle.operations.specs.Ask.{Filled};
ghost use Rattle.keyset.specs.Set.{members_below};
ghost use Rattle.shared.specs.Refusal.{refusal, value};

use keyset::KeySet;
use shared::Refusal;

// Writes the n keys of a set to the front of the row, ascending, unless the row is too short. A helper between crates: the caller has
// counted the set's keys.
pub fn fill(marks: &KeySet, n: usize, row: &mut [u16]) -> Result<usize, Refusal>
    requires { n ≡ length (members_below marks.now.bytes 65536) }
    ensures { Filled (members_below marks.now.bytes 65536) row.old (refusal result) (value result) row.new }
{
    if row.len() < n {
        return Err(Refusal::ShortRow);
    }
    marks.list(n, row);
    Ok(n)
}
