// Answers packed into one number each, for a host.
#![tactic(auto)]

ghost use Rattle.std.specs.Prelude.{get_or, take, drop, ◌≡◌};
ghost use Rattle.cursor.specs.At.{showing};
ghost use Rattle.packing.specs.Packed.{step_answer, answer, node_answer};
ghost use Rattle.packing.specs.Packs.{PacksStep, PacksNumber, PacksFirst};

use cursor::Shown;
use search::Step;

// What a refusal number is multiplied by: 2^8 in the answer of a step, 2^48 in the other answers.
const STEP_REFUSAL: u32 = 256;

const REFUSAL: u64 = 281474976710656;

// And the other fields: the mark by 2^40, the label by 2^32, p by 2^16.
const MARK: u64 = 1099511627776;

const LABEL: u64 = 4294967296;

const P: u64 = 65536;

// In the answer of the walk also the kind, by 2^56; the key stands in the place of p, its high byte 2^8 higher.
const KIND: u64 = 72057594037927936;

const KEY_HIGH: u64 = 16777216;

// A refusal number in the answer of a step.
pub fn packed_step_refusal(number: u8) -> u32
    ensures { result ≡ step_answer number 0 }
{
    u32::from(number) * STEP_REFUSAL
}

// The answer of a step as one number. What it is refused with is anything that stands for a number of 8 bits.
pub fn packed_step<E: Into<u8>>(given: Result<u8, E>) -> u32
    ensures { PacksStep E.converts given result }
{
    match given {
        Err(r) => packed_step_refusal(r.into()),
        Ok(label) => u32::from(label),
    }
}

// A refusal number in the other answers.
pub fn packed_refusal(number: u8) -> u64
    ensures { result ≡ answer number 0 0 0 0 }
{
    u64::from(number) * REFUSAL
}

// An answer that is a number, packed.
pub fn packed_number<E: Into<u8>>(given: Result<usize, E>) -> u64
    ensures { PacksNumber E.converts given result }
{
    match given {
        Err(r) => packed_refusal(r.into()),
        Ok(n) => n as u64,
    }
}

// The answer of the search for a step, packed.
pub fn packed_first<E: Into<u8>>(given: Result<Option<Step>, E>) -> u64
    ensures { PacksFirst E.converts given result }
{
    match given {
        Err(r) => packed_refusal(r.into()),
        Ok(None) => 0,
        Ok(Some(step)) => {
            MARK + u64::from(step.label) * LABEL + u64::from(step.p) * P + u64::from(step.q)
        }
    }
}

// Byte i of the body that begins at `from` and is `long` bytes long; 0 where it has no such byte.
fn body_byte(record: &[u8], from: usize, long: usize, i: usize) -> u8
    ensures { result ≡ get_or (take long (drop from «record».now)) i 0 }
{
    if long <= i || record.len() <= i || record.len() - i <= from {
        return 0;
    }
    record[from + i]
}

// What is shown of a node of the record, packed.
pub fn packed_node(record: &[u8], given: Option<Shown>) -> u64
    ensures { result ≡ node_answer 0 (showing «record».now given) }
{
    let Some(node) = given else {
        return 0;
    };
    let first = u64::from(body_byte(record, node.body, node.length, 0));
    let high = u64::from(body_byte(record, node.body, node.length, 1));
    let low = u64::from(body_byte(record, node.body, node.length, 2));
    let kind = u64::from(u8::from(node.kind));
    kind * KIND + MARK + first * LABEL + high * KEY_HIGH + low * P + u64::from(node.depth)
}
