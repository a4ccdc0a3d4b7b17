// Soundness of a record (01, Soundness): its verdict, 0 to 7.
#![tactic(auto)]

ghost use Rattle.std.specs.Prelude.{◌≡◌};
ghost use Rattle.pairs.specs.Condition.{verdict};
ghost use Rattle.shared.specs.Refusal.{refusal, value};
ghost use Rattle.operations.specs.Ask.{Soundness};

use folds::fold_all;
use judge::judge;
use pairs::Condition;
use shared::Refusal;

// The number of the condition that fails, 0 if none does.
fn number(fails: Option<Condition>) -> usize
    ensures { result ≡ verdict fails }
{
    fails.map_or(0, |c| usize::from(u8::from(c)))
}

// The verdict of a record: the number of the lowest of the seven conditions that fails, 0 if none does.
pub fn verdict(record: &[u8]) -> Result<usize, Refusal>
    ensures { Soundness «record».now (refusal result) (value result) }
{
    let marks = fold_all(record)?;
    let fails = if !marks.waits {
        Some(Condition::Waiting)
    } else if !marks.chosen {
        Some(Condition::Choosing)
    } else {
        judge(record)
    };
    Ok(number(fails))
}
