// One pass over a record: it is read, and what the rules say of a step is found, from the leaves to the root.
#![tactic(auto)]

ghost use Rattle.findings.specs.Seen.{Found};
ghost use Rattle.survey.specs.Survey.{Looked};

use findings::{Ask, Move, Seen, Spots};
use passes::{Pass, pass_all};
use shared::{NOT_DONE, Name, Refusal};

// The pass that finds what the rules say of a step.
#[derive(Clone, Copy)]
struct Survey(Ask);

impl Pass for Survey {
    type Part = Seen;

    ghost fits = { λ it. Found it.0 };

    fn at_nil(self) -> Seen {
        Seen {
            any: false,
            stands: false,
            spots: Spots::none(),
            moved: Move::Still,
        }
    }

    // Laid into the pass, as is `at_two`: handed over by calls, the parts would lie on the stack of every level once more.
    #[inline(always)]
    fn at_prefix(self, at: u16, n: u16, action: u8, key: u16, below: Seen) -> Seen {
        let ask = self.0;
        let chosen = ask.takes(n, key);
        let done = key != NOT_DONE;
        let moved = below
            .moved
            .over_prefix(chosen, ask.may_step(key), done, below.any, action);
        let spots = if chosen {
            below.spots.after(at)
        } else {
            below.spots
        };
        Seen {
            any: done | below.any,
            stands: (ask.key() == key) | below.stands,
            spots,
            moved,
        }
    }

    fn at_restriction(self, name: Name, below: Seen) -> Seen {
        Seen {
            moved: below.moved.over_restriction(name),
            ..below
        }
    }

    #[inline(always)]
    fn at_two(self, parallel: bool, left: Seen, right: Seen) -> Seen {
        let moved = if parallel {
            left.moved.over_parallel(right.moved)
        } else {
            left.moved.over_choice(right.moved, left.any, right.any)
        };
        Seen {
            any: left.any | right.any,
            stands: left.stands | right.stands,
            spots: left.spots.join(right.spots),
            moved,
        }
    }
}

// What a pass over the whole record finds.
pub fn survey_all(s: &[u8], ask: Ask) -> Result<Seen, Refusal>
    ensures { Looked s.now ask result }
{
    pass_all(Survey(ask), s)
}
