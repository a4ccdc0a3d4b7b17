// A plain cursor over a record (01, The record): it shows kind, body and depth of each node in preorder, and goes on to the next.
#![tactic(auto)]

ghost use Rattle.std.specs.Prelude.{◌<◌};

use reader::{DEPTH, Head, Kind};
use shared::Node;

// The limits of a record, as the cursor's numbers are held.
const NODES: u16 = reader::NODES as u16;

const LEVELS: u16 = reader::DEPTH as u16;

// The number of the refusal, if the record is refused (any number, as for all that is promised of a cursor); or where the next node stands,
// its number, and the depths of the `many` nodes that are due: the next one last. There is no heap, so the depths have room for a node on
// each level.
#[derive(Clone, Copy)]
pub struct Cursor {
    pub refusal: Option<u8>,
    pub at: usize,
    pub node: Node,
    pub due: [u16; DEPTH],
    pub many: usize,
}

// What is shown of a node: its kind, where its body begins and how long it is, its depth.
#[derive(Clone, Copy)]
pub struct Shown {
    pub kind: Kind,
    pub body: usize,
    pub length: usize,
    pub depth: u16,
}

impl Cursor {
    ghost use Rattle.cursor.specs.At.{Opens, Shows, Goes, DueAt, Made};

    // A cursor before the first node of the record; one that bears the refusal where the bytes are no record.
    pub fn open(bytes: &[u8]) -> Cursor
        ensures { Opens bytes.now result }
    {
        let mut due = [0u16; DEPTH];
        match reader::read(bytes) {
            Err(r) => Cursor {
                refusal: Some(u8::from(r)),
                at: 0,
                node: Node(0),
                due,
                many: 0,
            },
            Ok(_) => {
                due[0] = 1;
                Cursor {
                    refusal: None,
                    at: 0,
                    node: Node(0),
                    due,
                    many: 1,
                }
            }
        }
    }

    // The node that is due, without its children; none for a cursor with nothing due, and for one that stands nowhere.
    fn due_at(&self, bytes: &[u8]) -> Option<Head>
        ensures { DueAt bytes.now self.now result }
    {
        if self.many == 0 || DEPTH < self.many || NODES <= self.node.0 || bytes.len() <= self.at {
            return None;
        }
        reader::node_at(bytes, self.at).ok()
    }

    // The node that the cursor stands at.
    pub fn show(&self, bytes: &[u8]) -> Option<Shown>
        ensures { Shows bytes.now self.now result }
    {
        let head = self.due_at(bytes)?;
        let body = self.at + 1;
        Some(Shown {
            kind: head.kind,
            body,
            length: head.next - body,
            depth: self.due[self.many - 1],
        })
    }

    // Puts the cursor at the next node, whose bytes begin at `at`, with so many nodes due.
    fn stand(&mut self, at: usize, many: usize)
        requires { self.old.node.0 < 4096 }
        ensures { Made self.old at many self.new }
    {
        self.refusal = None;
        self.at = at;
        self.node = Node(self.node.0 + 1);
        self.many = many;
    }

    // Goes on to the node after the one that the cursor stands at; past the last it stays there.
    pub fn advance(&mut self, bytes: &[u8])
        ensures { Goes bytes.now self.old self.new }
    {
        let Some(head) = self.due_at(bytes) else {
            return;
        };
        let children = head.children;
        let many = self.many;
        let top = many - 1;
        if children == 0 {
            self.stand(head.next, top);
            return;
        }
        let depth = self.due[top];
        if LEVELS <= depth {
            return;
        }
        let deeper = depth + 1;
        if children == 1 {
            self.due[top] = deeper;
            self.stand(head.next, many);
            return;
        }
        if DEPTH <= many {
            return;
        }
        self.due[top] = deeper;
        self.due[many] = deeper;
        self.stand(head.next, many + 1);
    }
}
