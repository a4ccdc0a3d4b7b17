// What several crates share: keys, node numbers and names, the numbers of labels, why an operation is refused, and tests on labels.
#![tactic(auto)]

ghost use Rattle.std.specs.Prelude.{◌≡◌, ◌%◌};
ghost use Rattle.ccsk.specs.Term.{Co, On};
ghost use Rattle.format.specs.Read.{key_of};
ghost use Rattle.shared.specs.Tells.{Tells};
ghost use Rattle.shared.specs.Refusal.{number};

// A key, a node number and a name are three things, so that none is read as another.
#[derive(Clone, Copy)]
pub struct Key(pub u16);

#[derive(Clone, Copy)]
pub struct Node(pub u16);

#[derive(Clone, Copy)]
pub struct Name(pub u8);

// Why an operation is refused (01, Operations and their refusals), each with its number there.
#[derive(Clone, Copy)]
pub enum Refusal {
    // The bytes are no record.
    NoRecord = 1,
    // The record is over a limit.
    OverLimit = 2,
    // The key is 0.
    KeyZero = 3,
    // p is no prefix node, or q is not 0 and is no prefix node or is at most p.
    NoPlaces = 4,
    // The key stands in the record already.
    KeyStands = 5,
    // The rules derive no such step.
    NoStep = 6,
    // The key stands nowhere in the record.
    KeyAbsent = 7,
    // The rules derive no undo of this key.
    NoUndo = 8,
    // The lent row is shorter than the list.
    ShortRow = 9,
    // The record is not sound (02, [6]).
    NotSound = 13,
}

impl From<Refusal> for u8 {
    ghost from_gives = { λ r n. n ≡ number r };

    fn from(r: Refusal) -> u8 {
        r as u8
    }
}

// Labels (01, The record): tau, the greatest name, what a co-name adds to its name, and the byte that is no action.
pub const TAU: u8 = 0;

pub const LAST_NAME: u8 = 127;

pub const CO: u8 = 128;

pub const NO_ACTION: u8 = 128;

// A name and its co-name share a place in a table by names.
pub const NAMES: usize = 128;

// The key of a prefix that is not done.
pub const NOT_DONE: u16 = 0;

// A name's place in a table by names.
pub fn slot(name: Name) -> usize
    ensures { result ≡ name.0 % 128 }
{
    slot_of(name.0)
}

// A label's place there: that of the name that it is, or whose co-name it is.
pub fn slot_of(label: u8) -> usize
    ensures { result ≡ label % 128 }
{
    usize::from(label) % NAMES
}

// The key whose two bytes these are.
pub fn key_of(high: u8, low: u8) -> u16
    ensures { result ≡ key_of high low }
{
    u16::from_be_bytes([high, low])
}

// Whether the two labels are a name and its co-name.
pub fn complementary(l: u8, k: u8) -> bool
    ensures { Tells result (Co l k) }
{
    if l == TAU || l == CO {
        return false;
    }
    if l < CO { k == l + CO } else { k == l - CO }
}

// Whether the label is this name or its co-name. What is no name has no label on it.
pub fn is_on(name: Name, label: u8) -> bool
    ensures { Tells result (On name.0 label) }
{
    let a = name.0;
    if a == 0 || LAST_NAME < a {
        return false;
    }
    label == a || label == a + CO
}
