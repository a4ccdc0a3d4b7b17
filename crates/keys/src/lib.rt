// Operations on the keys of a record (01, Operations and their refusals): how many different ones, the least free one, the blank form.
#![tactic(auto)]

ghost use Rattle.std.specs.Prelude.{◌≡◌, [], ◌+◌, ◌<◌, length, get_or};
ghost use Rattle.ccsk.specs.Numbers.{distinct};
ghost use Rattle.format.specs.Flat.{key_at};
ghost use Rattle.operations.specs.Ask.{KeyCount, FreeKey};
ghost use Rattle.operations.specs.Change.{BlankForm};
ghost use Rattle.shared.specs.Refusal.{refusal, value};
ghost use Rattle.keyset.specs.Set.{member};
ghost use Rattle.keys.specs.Erase.{Erased};
ghost use Rattle.keys.specs.Gather.{Within, end_at, Readable, Holds, Marked, Scanned, Gathered, cleared_at, Cleared};

use keyset::KeySet;
use reader::{Kind, PREFIX, RESTRICTION};
use shared::{NOT_DONE, Refusal, key_of};

// The key that the node at `at` holds; 0 if it is no prefix. A helper between crates: the caller has seen that a prefix's bytes are there.
// Nothing is asked of other bytes, which need not be kinds.
pub fn key_at(bytes: &[u8], at: usize) -> u16
    requires { (at < length bytes.now) × (get_or bytes.now at 0 ≡ 1 → at + 3 < length bytes.now) }
    ensures { result ≡ key_at bytes.now at }
{
    if bytes[at] == PREFIX {
        key_of(bytes[at + 2], bytes[at + 3])
    } else {
        0
    }
}

// The key of a node, 0 if it is no prefix, and where the next node begins.
#[derive(Clone, Copy)]
pub struct Keyed {
    pub key: u16,
    pub next: usize,
}

// The key of the node at `at`, and its end. A helper between crates: the caller has seen that the node's bytes are there. A prefix has a
// branch of its own; of the others a test gives the length as a number, with no branch. A match on the kind is a jump, and slower here.
pub fn keyed_at(bytes: &[u8], at: usize) -> Keyed
    requires { Within bytes.now at }
    ensures { (result.key ≡ key_at bytes.now at) × (result.next ≡ end_at bytes.now at) }
{
    let byte = bytes[at];
    if byte == PREFIX {
        return Keyed {
            key: key_at(bytes, at),
            next: at + 1 + Kind::Prefix.body(),
        };
    }
    Keyed {
        key: NOT_DONE,
        next: at + (1 + usize::from(byte == RESTRICTION) * Kind::Restriction.body()),
    }
}

// Puts a key into the set unless it is 0: how many more keys the set has then, 0 or 1. A helper between crates.
pub fn mark(marks: &mut KeySet, key: u16) -> usize
    ensures { Marked marks.old.bytes key marks.new.bytes result }
{
    if key == NOT_DONE { 0 } else { marks.add(key) }
}

// Puts the keys of a column into an empty set: how many different ones there are. A helper between crates.
pub fn mark_all(column: &[u16], marks: &mut KeySet) -> usize
    requires { Holds marks.old.bytes [] }
    ensures { Holds marks.new.bytes column.now × (result ≡ distinct column.now) }
{
    let mut n: usize = 0;
    for key in column {
        n += marks.add(*key);
    }
    n
}

// Marks the keys of a readable record in an empty set: how many different ones there are. A walk from node to node, as each node tells where
// the next one begins.
fn scan(bytes: &[u8], marks: &mut KeySet) -> usize
    requires readable { Readable bytes.now }
    requires holds { Holds marks.old.bytes [] }
    ensures { Scanned bytes.now marks.new.bytes result }
{
    let mut at: usize = 0;
    let mut n: usize = 0;
    while at < bytes.len() {
        let node = keyed_at(bytes, at);
        n += mark(marks, node.key);
        at = node.next;
    }
    n
}

// Reads the record and marks its keys in an empty set: the refusal, or how many different ones there are.
fn gather(s: &[u8], marks: &mut KeySet) -> Result<usize, Refusal>
    requires { Holds marks.old.bytes [] }
    ensures { Gathered s.now marks.new.bytes result }
{
    reader::read(s)?;
    Ok(scan(s, marks))
}

// The number of distinct keys of the record.
pub fn count(bytes: &[u8]) -> Result<usize, Refusal>
    ensures { KeyCount bytes.now (refusal result) (value result) }
{
    gather(bytes, &mut KeySet::new())
}

// The least key that stands nowhere in the record. In the set of its keys and 0, it is the least number that is missing.
pub fn least_free(bytes: &[u8]) -> Result<usize, Refusal>
    ensures { FreeKey bytes.now (refusal result) (value result) }
{
    let mut marks = KeySet::new();
    gather(bytes, &mut marks)?;
    marks.add(0);
    Ok(usize::from(marks.least_missing()))
}

// Key 0 at the node at `at`, if it is a prefix. The caller has seen that the node's bytes are there.
fn clear_at(bytes: &mut [u8], at: usize)
    requires { (at < length bytes.old) × (get_or bytes.old at 0 ≡ 1 → at + 3 < length bytes.old) }
    ensures { bytes.new ≡ cleared_at bytes.old at }
{
    if bytes[at] == PREFIX {
        bytes[at + 2] = 0;
        bytes[at + 3] = 0;
    }
}

// Makes each key of a readable record that is in the set 0, in one walk from node to node. A helper between crates.
pub fn erase(bytes: &mut [u8], marks: &KeySet)
    requires { Readable bytes.old }
    ensures { Erased (member marks.now.bytes) bytes.old bytes.new }
{
    let mut at: usize = 0;
    while at < bytes.len() {
        let node = keyed_at(bytes, at);
        if marks.has(node.key) {
            clear_at(bytes, at);
        }
        at = node.next;
    }
}

// Marks the keys of a readable record in an empty set and makes each 0, in one walk from node to node: how many different ones there were.
fn wipe(bytes: &mut [u8], marks: &mut KeySet) -> usize
    requires readable { Readable bytes.old }
    requires holds { Holds marks.old.bytes [] }
    ensures { Scanned bytes.old marks.new.bytes result × Cleared bytes.old bytes.new }
{
    let mut at: usize = 0;
    let mut n: usize = 0;
    while at < bytes.len() {
        let node = keyed_at(bytes, at);
        n += mark(marks, node.key);
        clear_at(bytes, at);
        at = node.next;
    }
    n
}

// The blank form: every key becomes 0. Answers how many distinct keys that removed.
pub fn blank(bytes: &mut [u8]) -> Result<usize, Refusal>
    ensures { BlankForm bytes.old (refusal result) (value result) bytes.new }
{
    reader::read(bytes)?;
    Ok(wipe(bytes, &mut KeySet::new()))
}
