// The keys that a chain of links leads to from a key. Each key that is reached waits in a queue for its own links to be followed, so that
// none is followed twice. Helpers between crates, with what each asks of its caller.
#![tactic(auto)]

ghost use Rattle.std.specs.Prelude.{◌≡◌, [], ◌<◌, length};
ghost use Rattle.keys.specs.Gather.{Holds};
ghost use Rattle.filing.specs.Cabinet.{Filed};
ghost use Rattle.chains.specs.Reach.{Meets, Reached, From, Follows, Closed};

use filing::{Cabinet, LINKS, drawer};
use keyset::KeySet;

// The keys that were reached, each once, and how many they are.
#[derive(Drop)]
struct Queue {
    keys: [u16; LINKS],
    many: usize,
}

impl Queue {
    // Looks at a link while those from `from` are followed: its lower key, if that is new and not the key asked for, goes into the set and
    // to the end of the queue. The place after the end is written either way, and how many there are tells whether it counts.
    fn meet(&mut self, set: &mut KeySet, upper: u16, lower: u16, from: u16, asked: u16)
        requires { self.old.many < length self.old.keys }
        ensures { Meets upper lower from asked set.old.bytes self.old set.new.bytes self.new }
    {
        if upper == from && lower != asked {
            let new = set.add(lower);
            self.keys[self.many] = lower;
            self.many += new;
        }
    }

    // Follows the links from one key. They are a list in the cabinet: a loop over a range cannot go along it.
    fn follow(&mut self, set: &mut KeySet, cabinet: &Cabinet, from: u16, asked: u16)
        requires filed { Filed cabinet.now }
        requires reached { Reached cabinet.now asked set.old.bytes self.old }
        requires from { From cabinet.now asked from }
        ensures { Follows cabinet.now asked from set.old.bytes self.old set.new.bytes self.new }
    {
        let mut link = usize::from(cabinet.latest[drawer(from)]);
        while 0 < link {
            self.meet(set, cabinet.upper[link], cabinet.lower[link], from, asked);
            link = usize::from(cabinet.older[link]);
        }
    }
}

// Puts the keys that a chain of links leads to from the key asked for into an empty set, without that key itself: how many they are. The
// queue grows while it is gone through, so that no range is known for a loop over it.
pub fn reach(cabinet: &Cabinet, asked: u16, set: &mut KeySet) -> usize
    requires filed { Filed cabinet.now }
    requires holds { Holds set.old.bytes [] }
    ensures { Closed cabinet.now asked set.new.bytes result }
{
    let mut queue = Queue {
        keys: [0; LINKS],
        many: 0,
    };
    queue.follow(set, cabinet, asked, asked);
    let mut head: usize = 0;
    while head < queue.many {
        let from = queue.keys[head];
        queue.follow(set, cabinet, from, asked);
        head += 1;
    }
    queue.many
}
