// One pass over a record: it is read, and of each node a part is made from the parts of its children, from the leaves to the root.
#![tactic(auto)]

ghost use Rattle.std.specs.Prelude.{◌+◌, ◌*◌, ◌≤◌, ℕ};
ghost use Rattle.ccsk.specs.Term.{Term, nil};
ghost use Rattle.format.specs.Limits.{node_limit};
ghost use Rattle.passes.specs.Part.{OverPrefix, OverRestriction, OverTwo};
ghost use Rattle.passes.specs.Pass.{Passed, Whole};

use reader::{DEPTH, Kind, NODES, node_due};
use shared::{Name, Refusal, key_of};

// What a pass makes of each node. Nodes are numbered in the order of their bytes, and a node's place is where its bytes begin.
pub trait Pass: Copy {
    type Part: Copy;

    // The part is that of the term whose root is the node with this number, at this place.
    ghost fits: { Self → ℕ → ℕ → Term → Self.Part → Type 0 };

    // The part of nil.
    fn at_nil(self) -> Self::Part
        ensures { (i n : ℕ) → fits self i n nil result };

    // The part of the prefix at node n, whose bytes begin at `at`.
    fn at_prefix(self, at: u16, n: u16, action: u8, key: u16, below: Self::Part) -> Self::Part
        ensures { OverPrefix (fits self) at n action key below result };

    // The part of a restriction on the name.
    fn at_restriction(self, name: Name, below: Self::Part) -> Self::Part
        ensures { OverRestriction (fits self) name.0 below result };

    // The part of a parallel, or else of a choice, from those of its sides. One function for both has one place where it is called, and is laid
    // in there.
    fn at_two(self, parallel: bool, left: Self::Part, right: Self::Part) -> Self::Part
        ensures { OverTwo (fits self) parallel left right result };
}

// What a pass over the term at a place comes to: where the term ends, the term's part, and how many nodes may still come. A pass hands it
// back at every level, so its numbers are short. They stand apart, so that they are copied one by one: side by side they would be read as
// one number right after they were written as two, and the processor would wait.
#[derive(Clone, Copy)]
pub struct Done<T> {
    pub next: u16,
    pub part: T,
    pub left: u16,
}

// A pass and the record that it goes over, lent to every level, so that a level keeps one address for both.
#[derive(Clone, Copy)]
struct Over<'a, P> {
    pass: P,
    s: &'a [u8],
}

impl<P: Pass> Over<'_, P> {
    // What a pass over the term at `at` comes to: at most `deep` levels and `left` nodes may come, so its root is node NODES - left.
    fn part_at(&self, at: usize, deep: usize, left: usize) -> Result<Done<P::Part>, Refusal>
        requires { (left ≤ node_limit) × (at + 4 * left ≤ 4 * node_limit) }
        ensures { Passed (P.fits self.now.pass) self.now.s.now at deep left result }
    {
        let s = self.s;
        let head = node_due(s, at, deep, left)?;
        if head.kind == Kind::Nil {
            return Ok(Done {
                next: head.next as u16,
                left: (left - 1) as u16,
                part: self.pass.at_nil(),
            });
        }
        let first = self.part_at(head.next, deep - 1, left - 1)?;
        match head.kind {
            Kind::Prefix => {
                let n = NODES - left;
                let key = key_of(s[at + 2], s[at + 3]);
                let part = self
                    .pass
                    .at_prefix(at as u16, n as u16, s[at + 1], key, first.part);
                Ok(Done { part, ..first })
            }
            Kind::Restriction => {
                let part = self.pass.at_restriction(Name(s[at + 1]), first.part);
                Ok(Done { part, ..first })
            }
            _ => {
                let next = usize::from(first.next);
                let rest = usize::from(first.left);
                let second = self.part_at(next, deep - 1, rest)?;
                let part = self
                    .pass
                    .at_two(head.kind == Kind::Parallel, first.part, second.part);
                Ok(Done { part, ..second })
            }
        }
    }
}

// What a pass over the whole record comes to: its part.
pub fn pass_all<P: Pass>(pass: P, s: &[u8]) -> Result<P::Part, Refusal>
    ensures { Whole (P.fits pass) s.now result }
{
    let done = Over { pass, s }.part_at(0, DEPTH, NODES)?;
    if usize::from(done.next) < s.len() {
        return Err(Refusal::NoRecord);
    }
    Ok(done.part)
}
