// The entries for a host: every operation on numbers, byte slices and rows. Each calls the proved operation and packs its answer into one number.
#![tactic(auto)]

ghost use Rattle.operations.specs.Ask.{ReadRecord, ShownNode, KeyCount, FreeKey, FirstStep, UndoListing, WaitingList, Soundness};
ghost use Rattle.operations.specs.Change.{ForwardStep, UndoStep, BlankForm};
ghost use Rattle.operations.specs.TakeBack.{TakeBack};
ghost use Rattle.packing.specs.Packed.{PackedStep, PackedNumber, PackedLent, PackedBoth, PackedFirst, PackedNode};

use packing::{packed_first, packed_node, packed_number, packed_refusal, packed_step};
use shared::{Key, Node};

// Reading: the number of nodes.
#[unsafe(no_mangle)]
pub extern "C" fn concoursel_read(record: &[u8]) -> u64
    ensures { PackedNumber (ReadRecord «record».now) result }
{
    packed_number(reader::read(record))
}

// Node n of the walk: kind, body and depth.
#[unsafe(no_mangle)]
pub extern "C" fn concoursel_node(record: &[u8], n: u16) -> u64
    ensures { PackedNode (ShownNode «record».now n) result }
{
    match reader::read(record) {
        Err(r) => packed_refusal(u8::from(r)),
        Ok(_) => packed_node(record, walker::node(record, Node(n))),
    }
}

// Forward step at the node p, or at p and q if q is not 0, with the key.
#[unsafe(no_mangle)]
pub extern "C" fn concoursel_forward(record: &mut [u8], p: u16, q: u16, key: u16) -> u32
    ensures { PackedStep (ForwardStep «record».old p q key) result «record».new }
{
    packed_step(steps::forward(record, Node(p), Node(q), Key(key)))
}

// Undo of the key.
#[unsafe(no_mangle)]
pub extern "C" fn concoursel_undo(record: &mut [u8], key: u16) -> u32
    ensures { PackedStep (UndoStep «record».old key) result «record».new }
{
    packed_step(steps::undo(record, Key(key)))
}

// The number of distinct keys.
#[unsafe(no_mangle)]
pub extern "C" fn concoursel_count(record: &[u8]) -> u64
    ensures { PackedNumber (KeyCount «record».now) result }
{
    packed_number(keys::count(record))
}

// The least free key.
#[unsafe(no_mangle)]
pub extern "C" fn concoursel_least_free(record: &[u8]) -> u64
    ensures { PackedNumber (FreeKey «record».now) result }
{
    packed_number(keys::least_free(record))
}

// The first forward step at or after (p, q): mark, label and places.
#[unsafe(no_mangle)]
pub extern "C" fn concoursel_first(record: &[u8], p: u16, q: u16) -> u64
    ensures { PackedFirst (FirstStep «record».now p q) result }
{
    packed_first(search::first_step(record, Node(p), Node(q)))
}

// The blank form, and how many distinct keys that removed.
#[unsafe(no_mangle)]
pub extern "C" fn concoursel_blank(record: &mut [u8]) -> u64
    ensures { PackedLent (BlankForm «record».old) result «record».new }
{
    packed_number(keys::blank(record))
}

// The keys whose undo is allowed, ascending, to the front of the row.
#[unsafe(no_mangle)]
pub extern "C" fn concoursel_undo_listing(record: &[u8], list: &mut [u16]) -> u64
    ensures { PackedLent (UndoListing «record».now list.old) result list.new }
{
    packed_number(undos::listing::undo_listing(record, list))
}

// The waiting list of the key, to the front of the row.
#[unsafe(no_mangle)]
pub extern "C" fn concoursel_waiting(record: &[u8], key: u16, list: &mut [u16]) -> u64
    ensures { PackedLent (WaitingList «record».now key list.old) result list.new }
{
    packed_number(waiting::waiting(record, Key(key), list))
}

// Takes the key back with its waiting list, in their order, which goes to the front of the row.
#[unsafe(no_mangle)]
pub extern "C" fn concoursel_take_back(record: &mut [u8], key: u16, list: &mut [u16]) -> u64
    ensures { PackedBoth (TakeBack «record».old key list.old) result «record».new list.new }
{
    packed_number(takeback::take_back(record, Key(key), list))
}

// Soundness: the verdict.
#[unsafe(no_mangle)]
pub extern "C" fn concoursel_verdict(record: &[u8]) -> u64
    ensures { PackedNumber (Soundness «record».now) result }
{
    packed_number(soundness::verdict(record))
}
