// Dense numbers for the keys of a set: a member's rank is how many members are below it.
#![tactic(auto)]

ghost use Rattle.std.specs.Prelude.{◌≡◌, true, ◌+◌, ◌*◌, ◌≤◌, ◌<◌};
ghost use Rattle.keyset.specs.Set.{member};
ghost use Rattle.rank.specs.Rank.{one_more, rank, Ranked};

use keyset::{BYTES, KeySet};

// One more than n, if k is in the set.
fn counted(set: &KeySet, k: usize, n: usize) -> usize
    requires { (k < 65536) × (n ≤ k) }
    ensures { result ≡ one_more (member set.now.bytes k) n }
{
    if set.has(k as u16) { n + 1 } else { n }
}

// The rank of `to`, from the rank n of `from`.
fn climb(set: &KeySet, from: usize, to: usize, n: usize) -> usize
    requires { (from ≤ to) × (to ≤ 65536) × (n ≡ rank set.now.bytes from) }
    ensures { result ≡ rank set.now.bytes to }
{
    let mut r = n;
    for k in from..to {
        r = counted(set, k, r);
    }
    r
}

// Writes down, for each byte that holds a member, the rank of its first number. All `many` members are ranked when the last such byte is
// passed, so what lies behind the greatest member costs nothing.
fn fill(set: &KeySet, many: usize, base: &mut [u16; BYTES])
    requires { many ≡ rank set.now.bytes 65536 }
    ensures { Ranked set.now.bytes base.new }
{
    if many == 0 {
        return;
    }
    let mut n: usize = 0;
    for i in 0..BYTES {
        if set.bytes[i] != 0 {
            base[i] = n as u16;
            n = climb(set, i * 8, i * 8 + 8, n);
            if n == many {
                return;
            }
        }
    }
}

// The ranks of a set's members: for each byte that holds one, the rank of its first.
#[derive(Clone, Copy)]
pub struct Ranking<'a> {
    pub set: &'a KeySet,
    pub base: &'a [u16; BYTES],
    pub ghost ranked: { Ranked set.now.bytes base.now },
}

impl<'a> Ranking<'a> {
    // The ranks of the `many` members of the set. `base` is room to write them down.
    pub fn of(set: &'a KeySet, many: usize, base: &'a mut [u16; BYTES]) -> Ranking<'a>
        requires { many ≡ rank set.now.bytes 65536 }
        ensures { result.set.now ≡ set.now }
    {
        fill(set, many, base);
        Ranking { set, base }
    }

    // The rank of a member: what is written down for its byte, and at most seven numbers more.
    pub fn rank(&self, key: u16) -> usize
        requires { member self.now.set.now.bytes key ≡ true }
        ensures { result ≡ rank self.now.set.now.bytes key }
    {
        let k = usize::from(key);
        let at = k / 8;
        climb(self.set, at * 8, k, usize::from(self.base[at]))
    }
}
