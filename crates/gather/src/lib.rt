// One pass over a record that reads it and notes its keys and the prefixes that can be the last to have been done.
#![tactic(auto)]

ghost use Rattle.std.specs.Prelude.{◌+◌, ◌≤◌};
ghost use Rattle.format.specs.Limits.{node_limit};
ghost use Rattle.gather.specs.Gather.{Gathers};

use noting::Notes;
use reader::{Kind, NODES, node_due};
use shared::Refusal;

// Where a term ends, and how many nodes may still come.
#[derive(Clone, Copy)]
pub struct Part {
    pub next: usize,
    pub left: usize,
}

// Reads the term at `at`, where at most `deep` levels and `left` nodes may come, and notes its keys and its lasts.
pub fn gather(
    s: &[u8],
    at: usize,
    deep: usize,
    left: usize,
    notes: &mut Notes,
) -> Result<Part, Refusal>
    requires { (notes.old.key_count + left ≤ node_limit) × (notes.old.last_count ≤ notes.old.key_count) }
    ensures { Gathers s.now at deep left notes.old result notes.new }
{
    let head = node_due(s, at, deep, left)?;
    if head.children == 0 {
        return Ok(Part {
            next: head.next,
            left: left - 1,
        });
    }
    let entered = notes.enter(s, at, head.kind, NODES - left);
    let first = gather(s, head.next, deep - 1, left - 1, notes)?;
    match head.kind {
        Kind::Prefix => {
            notes.leave_prefix(s, at, entered);
            Ok(first)
        }
        Kind::Restriction => {
            notes.leave_restriction(s, at, entered);
            Ok(first)
        }
        kind => {
            let between = notes.key_count;
            let second = gather(s, first.next, deep - 1, first.left, notes)?;
            notes.leave_two(kind, entered, between);
            Ok(second)
        }
    }
}
