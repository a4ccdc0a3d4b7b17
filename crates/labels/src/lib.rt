// The labels of the undos of a record, for all keys of a row in one pass over the record. Helpers between crates, with what each asks of
// its caller.
#![tactic(auto)]

ghost use Rattle.std.specs.Prelude.{◌≡◌, ◌≤◌, length};
ghost use Rattle.format.specs.Limits.{node_limit};
ghost use Rattle.keys.specs.Gather.{Readable};
ghost use Rattle.labels.specs.Labels.{joined, Rising, Noted, Unlabelled, UndoLabels};

use keys::keyed_at;
use reader::NODES;
use shared::{NO_ACTION, NOT_DONE, TAU};

// A label with one place more: the action of the first place, tau with a second. No label yet is the byte that is no action: an Option would
// double the row.
fn join(label: u8, action: u8) -> u8
    ensures { result ≡ joined label action }
{
    if label == NO_ACTION { action } else { TAU }
}

// Joins the action to the label of the key, if the key stands in the row.
fn note(row: &[u16], key: u16, action: u8, labels: &mut [u8; NODES])
    requires { Rising row.now × (length row.now ≤ node_limit) }
    ensures { Noted row.now key action labels.old labels.new }
{
    if let Ok(i) = row.binary_search(&key) {
        labels[i] = join(labels[i], action);
    }
}

// For each key of the row, the label of its undo in the record, if that is allowed. A walk from node to node, as each node tells where the
// next one begins.
pub fn undo_labels(bytes: &[u8], row: &[u16], labels: &mut [u8; NODES])
    requires readable { Readable bytes.now }
    requires rising { Rising row.now × (length row.now ≤ node_limit) × Unlabelled (length row.now) labels.old }
    ensures { UndoLabels bytes.now row.now labels.new }
{
    let mut at: usize = 0;
    while at < bytes.len() {
        let node = keyed_at(bytes, at);
        if node.key != NOT_DONE {
            note(row, node.key, bytes[at + 1], labels);
        }
        at = node.next;
    }
}
