//! The housekeeping frame of 18 bytes: four numbers, each behind a tag and a length; reading (47 to 50) and writing (24).
#![tactic(auto)]

ghost use Rattle.std.proofs.Common.{rules};
ghost use Rattle.std.specs.Prelude.{◌≡◌, [], ◌∷◌, ◌++◌};
ghost use Rattle.std.specs.List.{flat_map};
ghost use Rattle.words.specs.BigEndian.{word_bytes, written};
ghost use Rattle.words.specs.Codes.{first_of};
ghost use Rattle.housekeeping.specs.Frame.{row_of, value_at, item_bytes, frame_bytes, frame_at};
ghost use Rattle.housekeeping.specs.Answers.{code_of, answer_of, item_checks, items_checks, read_of, wrote_of, write_code};
ghost use Rattle.housekeeping.specs.declared.Item.{Item};
ghost use Rattle.housekeeping.specs.Steps.{judged_code};

use words::{Code, NoRoom};

/// The numbers of a frame: the last received number, the last failed one and its code, and the free slots. Rules: "Housekeeping frame, 18 bytes".
#[derive(Clone, Copy, Debug, PartialEq, Eq)]
pub struct Housekeeping {
    pub received: u32,
    pub failed: u32,
    pub code: u8,
    pub free: u8,
}

/// Why bytes are no frame: 47, 48 and 49 at an item, 50 behind the last.
#[derive(Clone, Copy, Debug, PartialEq, Eq)]
pub enum Refusal {
    CutOff,
    WrongTag,
    WrongLength,
    LeftOver,
}

impl Code for Refusal {
    ghost code = { code_of };

    ghost refuses = { Prim.search rules };

    fn code(&self) -> u8 {
        match self {
            Refusal::CutOff => 47,
            Refusal::WrongTag => 48,
            Refusal::WrongLength => 49,
            Refusal::LeftOver => 50,
        }
    }
}

// The items of a frame, one to a number.
#[derive(Drop)]
enum Item {
    Received,
    Failed,
    Code,
    Free,
}

// Where an item begins, its tag, and how many bytes its value has.
#[derive(Drop)]
struct Row {
    at: usize,
    tag: u8,
    size: u8,
}

/// The bytes of a frame.
pub const SIZE: usize = 18;

// An item's tag and length, which stand in front of its value.
const HEAD: usize = 2;

fn row_of(item: Item) -> Row
    ensures { result ≡ row_of item }
{
    match item {
        Item::Received => Row {
            at: 0,
            tag: 0x12,
            size: 4,
        },
        Item::Failed => Row {
            at: 6,
            tag: 0x13,
            size: 4,
        },
        Item::Code => Row {
            at: 12,
            tag: 0x14,
            size: 1,
        },
        Item::Free => Row {
            at: 15,
            tag: 0x15,
            size: 1,
        },
    }
}

// Where an item's value begins.
fn value_at(item: Item) -> usize
    ensures { result ≡ value_at item }
{
    row_of(item).at + HEAD
}

// One item: 47, then 48, then 49.
fn judge_item(s: &[u8], item: Item) -> Result<(), Refusal>
    ensures { judged_code result ≡ first_of (item_checks item s.now) }
{
    let row = row_of(item);
    if s.len() < row.at + HEAD + usize::from(row.size) {
        return Err(Refusal::CutOff);
    }
    if s[row.at] != row.tag {
        return Err(Refusal::WrongTag);
    }
    if s[row.at + 1] != row.size {
        return Err(Refusal::WrongLength);
    }
    Ok(())
}

// All four items, in their order.
fn judge_items(s: &[u8]) -> Result<(), Refusal>
    ensures { judged_code result ≡ first_of (items_checks s.now) }
{
    judge_item(s, Item::Received)?;
    judge_item(s, Item::Failed)?;
    judge_item(s, Item::Code)?;
    judge_item(s, Item::Free)
}

// The numbers that these bytes say.
fn frame_at(s: &[u8]) -> Housekeeping
    ensures { result ≡ frame_at s.now }
{
    Housekeeping {
        received: words::word_at(s, value_at(Item::Received)),
        failed: words::word_at(s, value_at(Item::Failed)),
        code: words::byte_at(s, value_at(Item::Code)),
        free: words::byte_at(s, value_at(Item::Free)),
    }
}

/// The frame that these bytes are.
///
/// # Errors
///
/// 47, 48 and 49 at each of the four items in turn, then 50 where bytes are left over. Rules: "Housekeeping frame, 18 bytes".
pub fn read_housekeeping(s: &[u8]) -> Result<Housekeeping, Refusal>
    ensures { answer_of result ≡ read_of s.now }
{
    judge_items(s)?;
    if SIZE < s.len() {
        return Err(Refusal::LeftOver);
    }
    Ok(frame_at(s))
}

// An item of four bytes, with its tag and its length.
fn word_item(item: Item, value: u32) -> [u8; 6]
    ensures { result ≡ item_bytes item (word_bytes value) }
{
    let row = row_of(item);
    let [a, b, c, d] = value.to_be_bytes();
    [row.tag, row.size, a, b, c, d]
}

// Two items of a byte, one behind the other.
fn byte_items(code: u8, free: u8) -> [u8; 6]
    ensures { result ≡ item_bytes Item.Code (code ∷ []) ++ item_bytes Item.Free (free ∷ []) }
{
    let first = row_of(Item::Code);
    let second = row_of(Item::Free);
    [first.tag, first.size, code, second.tag, second.size, free]
}

// The bytes of a frame, six by six.
fn bytes_of(h: Housekeeping) -> [[u8; 6]; 3]
    ensures { flat_map (λ six. six) result ≡ frame_bytes h }
{
    [
        word_item(Item::Received, h.received),
        word_item(Item::Failed, h.failed),
        byte_items(h.code, h.free),
    ]
}

/// Writes a frame at the front of a room; the rest of the room stays as it was.
///
/// # Errors
///
/// `NoRoom` (24) where the room has fewer bytes than a frame. It is then as it was.
pub fn write_housekeeping(h: Housekeeping, room: &mut [u8]) -> Result<(), NoRoom>
    ensures result_value { wrote_of result ≡ write_code h room.old }
    ensures room_after { room.new ≡ written (frame_bytes h) room.old }
{
    words::put_bytes(room, bytes_of(h).as_flattened())
}
