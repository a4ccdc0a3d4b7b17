// The links of a record, from a key to the keys right below its prefixes, filed in drawers, so that few others are looked at on the way to
// the links of a key.
// Helpers between crates, with what each asks of its caller.
#![tactic(auto)]

ghost use Rattle.std.specs.Prelude.{◌≡◌, ◌<◌, ◌≤◌, length};
ghost use Rattle.format.specs.Limits.{node_limit};
ghost use Rattle.filing.specs.Cabinet.{Empty, drawer, Files};
ghost use Rattle.filing.specs.Record.{below, Pushed, FilesAll};

use keys::key_at;
use reader::{DEPTH, DUE, NODES, pass_node};
use shared::Refusal;

// A place for each link that a record may have, one for each node; the first place stands for no link.
pub const LINKS: usize = NODES + 1;

// Keys that differ by NODES have drawers that lie this far apart: keys numbered in steps of NODES do not all meet in one drawer.
const SHIFT: usize = 257;

// Links from a key to one right below it. The links are numbered from 1; 0 is none. Each is filed in the drawer of its upper key.
#[derive(Drop)]
pub struct Cabinet {
    // For each link its upper key, 0 while there is no such link, and its lower key.
    pub upper: [u16; LINKS],
    pub lower: [u16; LINKS],
    // For each link the one filed before it in its drawer.
    pub older: [u16; LINKS],
    // For each drawer its latest link.
    pub latest: [u16; NODES],
}

// The drawer of a key.
pub fn drawer(key: u16) -> usize
    ensures { result ≡ drawer key }
{
    let k = usize::from(key);
    (k + k / NODES * SHIFT) % NODES
}

// The key right above what stands below a node that holds `here`, where `up` is the key right above that node.
fn below(up: u16, here: u16) -> u16
    ensures { result ≡ below up here }
{
    if here == 0 { up } else { here }
}

// The top of a stack of `many` gives way to `value`, as often as there are children: how many there are then. Two places are written
// either way, and the new height tells which of them count.
fn push(stack: &mut [u16], many: usize, value: u16, children: usize) -> usize
    requires { (0 < many) × (many < length stack.old) × (children ≤ 2) }
    ensures { Pushed stack.old many value children stack.new result }
{
    let top = many - 1;
    stack[top] = value;
    stack[many] = value;
    top + children
}

impl Cabinet {
    // A cabinet in which nothing is filed.
    pub fn new() -> Cabinet
        ensures { Empty result }
    {
        Cabinet {
            upper: [0; LINKS],
            lower: [0; LINKS],
            older: [0; LINKS],
            latest: [0; NODES],
        }
    }

    // Files the link from `up` down to `here`, unless one of them is 0 and no key: how many links there are then.
    fn file(&mut self, links: usize, up: u16, here: u16) -> usize
        requires { links < node_limit }
        ensures { Files links up here self.old self.new result }
    {
        if up == 0 || here == 0 {
            return links;
        }
        let link = links + 1;
        let at = drawer(up);
        self.upper[link] = up;
        self.lower[link] = here;
        self.older[link] = self.latest[at];
        self.latest[at] = link as u16;
        link
    }

    // Reads a record and files its links on the way, so that the bytes are gone through once: how many links are filed, if the key stands
    // there. `due` and `ups` are stacks, with a number for each term that is due, the next term's last: how many levels it may have, and
    // the key right above it, 0 if there is none. Nodes have different lengths, so that no loop over a range goes along them.
    pub fn file_all(&mut self, bytes: &[u8], key: u16) -> Result<Option<usize>, Refusal>
        requires key_nonzero { 0 < key }
        requires empty { Empty self.old }
        ensures { FilesAll bytes.now key self.new result }
    {
        let mut due = [DEPTH; DUE];
        let mut ups = [0u16; DUE];
        let mut many: usize = 1;
        let mut left = NODES;
        let mut at: usize = 0;
        let mut links: usize = 0;
        let mut met = false;
        while 0 < many {
            let head = pass_node(bytes, at, left, many, &mut due)?;
            let here = key_at(bytes, at);
            let up = ups[many - 1];
            links = self.file(links, up, here);
            met |= here == key;
            many = push(&mut ups, many, below(up, here), head.children);
            left -= 1;
            at = head.next;
        }
        if at < bytes.len() {
            return Err(Refusal::NoRecord);
        }
        if met { Ok(Some(links)) } else { Ok(None) }
    }
}
