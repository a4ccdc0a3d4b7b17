// The two operations that change a record by a step: forward and undo. Each plans on the bytes as they are, and then writes; a refusal writes nothing.
#![tactic(auto)]

ghost use Rattle.std.specs.Prelude.{◌≡◌, ◌+◌, ◌<◌, length};
ghost use Rattle.operations.specs.Change.{ForwardStep, UndoStep};
ghost use Rattle.plans.specs.Plan.{put, carried, Inside};
ghost use Rattle.shared.specs.Refusal.{refusal, value};

use plans::{Plan, plan_forward, plan_undo};
use shared::{Key, NOT_DONE, Node, Refusal};

// Writes a key into the prefix whose bytes begin at `at`. The caller has seen that its body stands there.
fn write(bytes: &mut [u8], at: u16, key: u16)
    requires { at + 3 < length bytes.old }
    ensures { bytes.new ≡ put key bytes.old at }
{
    let i = usize::from(at);
    bytes[i + 2..i + 4].copy_from_slice(&key.to_be_bytes());
}

// Carries out a plan with a key. The caller has seen that the places of the plan stand in the record.
fn carry_out(bytes: &mut [u8], plan: Plan, key: u16)
    requires { Inside (length bytes.old) plan }
    ensures { bytes.new ≡ carried key plan bytes.old }
{
    write(bytes, plan.first, key);
    if let Some(second) = plan.second {
        write(bytes, second, key);
    }
}

// Forward step at the node p, or at p and q if q is not 0, with the key: its label, and each place holds the key.
pub fn forward(bytes: &mut [u8], p: Node, q: Node, key: Key) -> Result<u8, Refusal>
    ensures { ForwardStep bytes.old p.0 q.0 key.0 (refusal result) (value result) bytes.new }
{
    let plan = plan_forward(bytes, p.0, q.0, key.0)?;
    carry_out(bytes, plan, key.0);
    Ok(plan.label)
}

// Undo of the key: the label of its step, and each place that held the key holds 0.
pub fn undo(bytes: &mut [u8], key: Key) -> Result<u8, Refusal>
    ensures { UndoStep bytes.old key.0 (refusal result) (value result) bytes.new }
{
    let plan = plan_undo(bytes, key.0)?;
    carry_out(bytes, plan, NOT_DONE);
    Ok(plan.label)
}
