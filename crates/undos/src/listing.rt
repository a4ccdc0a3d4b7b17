// The undo listing (01, Operations): the keys whose undo is allowed, ascending, into a lent row.
ghost use Rattle.std.specs.Prelude.{◌≡◌, List, ◌++◌, ℕ, ◌≤◌, length, drop};
ghost use Rattle.format.specs.Limits.{node_limit};
ghost use Rattle.operations.specs.Ask.{UndoListing};
ghost use Rattle.noting.specs.Node.{noted_keys, noted_lasts};
ghost use Rattle.settle.specs.Group.{Small};
ghost use Rattle.shared.specs.Refusal.{refusal, value};
ghost use Rattle.undos.specs.Rows.{Positive, AllAmong, listed, Lines};

use gather::gather;
use keys::mark_all;
use keyset::{BYTES, KeySet};
use noting::Notes;
use rank::Ranking;
use reader::{DEPTH, NODES};
use settle::{State, settle};
use shared::Refusal;

// How many of the first n ranks are ready.
fn count_ready(states: &[State; NODES], n: usize) -> usize
    requires { n ≤ node_limit }
    ensures { (slots : List ℕ) → result ≡ length (listed states.now slots n) }
{
    let mut m: usize = 0;
    for r in 0..n {
        if states[r].is_ready() {
            m += 1;
        }
    }
    m
}

// Writes the keys of the first n ranks that are ready to the front of the row, which is long enough.
fn write_ready(states: &[State; NODES], slots: &[u16; NODES], n: usize, row: &mut [u16])
    requires { (n ≤ node_limit) × (length (listed states.now slots.now n) ≤ length row.old) }
    ensures { row.new ≡ listed states.now slots.now n ++ drop (length (listed states.now slots.now n)) row.old }
{
    let mut m: usize = 0;
    for r in 0..n {
        if states[r].is_ready() {
            row[m] = slots[r];
            m += 1;
        }
    }
}

// Lists the keys that can be undone, from the keys and the lasts that were noted. Ranks are written down only as far as the keys go.
fn list(notes: &mut Notes, row: &mut [u16]) -> Result<usize, Refusal>
    requires keys { (notes.old.key_count ≤ node_limit) × Small (noted_keys notes.old) × Positive (noted_keys notes.old) }
    requires lasts { (notes.old.last_count ≤ node_limit) × AllAmong (noted_keys notes.old) (noted_lasts notes.old) }
    ensures { Lines (noted_keys notes.old) (noted_lasts notes.old) row.old (refusal result) (value result) row.new }
{
    let mut marks = KeySet::new();
    let total = mark_all(&notes.keys[..notes.key_count], &mut marks);
    let mut base = [0u16; BYTES];
    let ranking = Ranking::of(&marks, total, &mut base);
    let mut states = [State::Unseen; NODES];
    settle(notes, &ranking, &mut states);
    let count = count_ready(&states, total);
    if row.len() < count {
        return Err(Refusal::ShortRow);
    }
    write_ready(&states, &notes.keys, total, row);
    Ok(count)
}

// The keys of the record whose undo is allowed, ascending, to the front of the row.
pub fn undo_listing(bytes: &[u8], row: &mut [u16]) -> Result<usize, Refusal>
    ensures { UndoListing bytes.now row.old (refusal result) (value result) row.new }
{
    let mut notes = Notes::new();
    let part = gather(bytes, 0, DEPTH, NODES, &mut notes)?;
    if part.next < bytes.len() {
        return Err(Refusal::NoRecord);
    }
    list(&mut notes, row)
}
