// The conditions 1 and 2 of 01 (Soundness), decided in one pass while the record is read.
#![tactic(auto)]

ghost use Rattle.folds.specs.Folded.{MarksOf, Looked};

use passes::{Pass, pass_all};
use shared::{NOT_DONE, Name, Refusal};

// Of a part of a record: whether a prefix holds a key, and whether the conditions 1 and 2 hold.
#[derive(Clone, Copy)]
pub struct Marks {
    pub holds: bool,
    pub waits: bool,
    pub chosen: bool,
}

// The pass that marks each node.
#[derive(Clone, Copy)]
struct Fold;

#[tactic(auto, unfolding(causes::specs::Tests::holds, causes::specs::Tests::waits, causes::specs::Tests::chosen))]
impl Pass for Fold {
    type Part = Marks;

    ghost fits = { λ it i n. MarksOf };

    fn at_nil(self) -> Marks {
        Marks {
            holds: false,
            waits: true,
            chosen: true,
        }
    }

    fn at_prefix(self, _at: u16, _n: u16, _action: u8, key: u16, below: Marks) -> Marks {
        if key == NOT_DONE {
            Marks {
                waits: !below.holds,
                ..below
            }
        } else {
            Marks {
                holds: true,
                ..below
            }
        }
    }

    fn at_restriction(self, _name: Name, below: Marks) -> Marks {
        below
    }

    fn at_two(self, parallel: bool, left: Marks, right: Marks) -> Marks {
        let one_side = parallel | !(left.holds & right.holds);
        Marks {
            holds: left.holds | right.holds,
            waits: left.waits & right.waits,
            chosen: one_side & (left.chosen & right.chosen),
        }
    }
}

// The whole record: its marks.
pub fn fold_all(s: &[u8]) -> Result<Marks, Refusal>
    ensures { Looked s.now result }
{
    pass_all(Fold, s)
}
