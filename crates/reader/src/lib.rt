// Reading a record (01, The record): one node at a place, the node that is due, and the whole record.
#![tactic(auto)]

ghost use Rattle.std.specs.Prelude.{◌<◌, ◌≤◌, ◌≡◌, length, slice_index};
ghost use Rattle.operations.specs.Ask.{ReadRecord};
ghost use Rattle.reader.specs.Kind.{byte_of, Decodes, body_of, children_of};
ghost use Rattle.reader.specs.Head.{KindAt, Headed};
ghost use Rattle.reader.specs.Walk.{Due};
ghost use Rattle.reader.specs.Due.{Remains, Passes};
ghost use Rattle.shared.specs.Refusal.{refusal, value};

use shared::{LAST_NAME, NO_ACTION, Refusal};

// The limits of a record: nodes, and levels.
pub const NODES: usize = 4096;

pub const DEPTH: usize = 256;

// The length of a stack with a number for each term that is due: a place for each level, and one to spare.
pub const DUE: usize = DEPTH + 1;

// The kinds of a node. The tables give for each the length of its body and the number of its children.
#[derive(Clone, Copy, PartialEq, Eq)]
pub enum Kind {
    Nil,
    Prefix,
    Choice,
    Parallel,
    Restriction,
}

// The bytes on which walks test that have a branch for a prefix, a restriction or nil: a match on the kind is slower there.
pub const NIL: u8 = Kind::Nil as u8;

pub const PREFIX: u8 = Kind::Prefix as u8;

pub const RESTRICTION: u8 = Kind::Restriction as u8;

const KINDS: usize = 5;

const BODY: [usize; KINDS] = [0, 3, 0, 0, 1];

const CHILDREN: [usize; KINDS] = [0, 1, 2, 2, 1];

impl TryFrom<u8> for Kind {
    type Error = Refusal;

    ghost try_from_gives = { Decodes };

    fn try_from(byte: u8) -> Result<Kind, Refusal> {
        match byte {
            0 => Ok(Kind::Nil),
            1 => Ok(Kind::Prefix),
            2 => Ok(Kind::Choice),
            3 => Ok(Kind::Parallel),
            4 => Ok(Kind::Restriction),
            _ => Err(Refusal::NoRecord),
        }
    }
}

impl From<Kind> for u8 {
    ghost from_gives = { λ kind byte. byte ≡ byte_of kind };

    fn from(kind: Kind) -> u8 {
        kind as u8
    }
}

impl Kind {
    // How many bytes the body of a node of this kind has.
    pub fn body(self) -> usize
        ensures { result ≡ body_of self }
    {
        BODY[self as usize]
    }

    // How many children a node of this kind has.
    pub fn children(self) -> usize
        ensures { result ≡ children_of self }
    {
        CHILDREN[self as usize]
    }
}

// The kind of the node at `at`. The caller has seen that a kind's byte stands there. It is told by tests, as in `node_at`: laid into a walk, a
// match on the byte is a jump through a table.
pub fn kind_at(s: &[u8], at: usize) -> Kind
    requires { (at < length s.now) × (slice_index s.now at ≤ 4) }
    ensures { byte_of result ≡ slice_index s.now at }
{
    let kind = s[at];
    if kind == PREFIX {
        return Kind::Prefix;
    }
    if kind == RESTRICTION {
        return Kind::Restriction;
    }
    if kind == NIL {
        return Kind::Nil;
    }
    if kind == Kind::Choice as u8 {
        Kind::Choice
    } else {
        Kind::Parallel
    }
}

// What stands at a place: a node with so many children, whose body ends at `next`.
#[derive(Clone, Copy)]
pub struct Head {
    pub kind: Kind,
    pub children: usize,
    pub next: usize,
}

// The node at `at`, where a byte says that it is a prefix.
fn prefix_at(s: &[u8], at: usize) -> Result<Head, Refusal>
    requires { KindAt 1 s.now at }
    ensures { Headed s.now at result }
{
    let from = at + 1;
    let body = Kind::Prefix.body();
    if s.len() - from < body || s[from] == NO_ACTION {
        return Err(Refusal::NoRecord);
    }
    Ok(Head {
        kind: Kind::Prefix,
        children: Kind::Prefix.children(),
        next: from + body,
    })
}

// The node at `at`, where a byte says that it is a restriction.
fn restriction_at(s: &[u8], at: usize) -> Result<Head, Refusal>
    requires { KindAt 4 s.now at }
    ensures { Headed s.now at result }
{
    let from = at + 1;
    let body = Kind::Restriction.body();
    if s.len() - from < body || s[from] == 0 || LAST_NAME < s[from] {
        return Err(Refusal::NoRecord);
    }
    Ok(Head {
        kind: Kind::Restriction,
        children: Kind::Restriction.children(),
        next: from + body,
    })
}

// The node at `at`, without its children. The caller has seen that a byte stands there. Each kind with a body has a branch of its own, so
// that the place of the next node waits for no table. The others share one: with a branch for each the tests become one jump through a
// table, and where the kinds come in no order that jump is guessed worse.
pub fn node_at(s: &[u8], at: usize) -> Result<Head, Refusal>
    requires { at < length s.now }
    ensures { Headed s.now at result }
{
    let byte = s[at];
    if byte == PREFIX {
        return prefix_at(s, at);
    }
    if byte == RESTRICTION {
        return restriction_at(s, at);
    }
    if RESTRICTION < byte {
        return Err(Refusal::NoRecord);
    }
    let kind = kind_at(s, at);
    Ok(Head {
        kind,
        children: kind.children(),
        next: at + 1,
    })
}

// The node that is due at `at`, where at most `deep` levels and `left` nodes may come: bytes ended, then the limits, then the node itself.
pub fn node_due(s: &[u8], at: usize, deep: usize, left: usize) -> Result<Head, Refusal>
    ensures { Due s.now at deep left result }
{
    if s.len() <= at {
        return Err(Refusal::NoRecord);
    }
    if deep == 0 || left == 0 {
        return Err(Refusal::OverLimit);
    }
    node_at(s, at)
}

// Passes the node that is due, if it is good. `due` is a stack: how many levels each of the `many` terms that are due may have, the next
// term's last. The node's children take its place there, with a level less. A helper for loops that read a record.
pub fn pass_node(
    s: &[u8],
    at: usize,
    left: usize,
    many: usize,
    due: &mut [usize; DUE],
) -> Result<Head, Refusal>
    requires { (0 < many) × Remains s.now due.old many left at }
    ensures { Passes s.now at left many result due.new }
{
    let top = many - 1;
    let levels = due[top];
    let head = node_due(s, at, levels, left)?;
    let below = levels - 1;
    due[top] = below;
    due[many] = below;
    Ok(head)
}

// The number of nodes of the record that the bytes are, or the refusal.
pub fn read(bytes: &[u8]) -> Result<usize, Refusal>
    ensures { ReadRecord bytes.now (refusal result) (value result) }
{
    let mut due = [DEPTH; DUE];
    let mut many: usize = 1;
    let mut left = NODES;
    let mut at: usize = 0;
    // The terms that are due grow and shrink, and nodes differ in length: there is no range to go over.
    while 0 < many {
        let head = pass_node(bytes, at, left, many, &mut due)?;
        many = many - 1 + head.children;
        left -= 1;
        at = head.next;
    }
    if at < bytes.len() {
        return Err(Refusal::NoRecord);
    }
    Ok(NODES - left)
}
