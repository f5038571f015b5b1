//! One record of the report, in the front of a lent part; and what the last records of a report say. Rules: "Two lists, one report".
#![tactic(auto)]

ghost use Rattle.std.specs.Prelude.{◌+◌, ◌/◌, ◌≤◌, ◌≡◌, length};
ghost use Rattle.words.specs.BigEndian.{written};
ghost use Rattle.report.specs.Record.{record_bytes, record_length, code_of, put_code};
ghost use Rattle.report.specs.Latest.{no_latest, number_in, code_in, last_failed, latest_of};

use words::NoRoom;

/// The bytes of a record.
pub const RECORD: usize = 12;

/// Where a record's code stands, behind the sender, which is its first byte.
pub const CODE_AT: usize = 1;

/// Where the parameter stands that an argument out of range belongs to.
pub const PAR_AT: usize = 2;

/// Where the command's number in its own list begins, 32 bits.
pub const NUMBER_AT: usize = 4;

/// Where the value begins that is out of range, 32 bits.
pub const VALUE_AT: usize = 8;

/// The most records of a run: 512 for each of two lists of 4,096 bytes.
pub const RECORDS: usize = 1024;

/// The bytes of room that so many records need.
pub const ROOM: usize = RECORDS * RECORD;

/// The number of the last record, and number and code of the last whose code is not 0; 0 where there is none. (No `Option`: the housekeeping frame has these
/// numbers, and zeros there.)
#[derive(Clone, Copy, Debug, PartialEq, Eq, Default)]
pub struct Latest {
    pub received: u32,
    pub failed: u32,
    pub code: u8,
}

/// Writes a record at the front of a room, `RECORD` bytes: the sender, the code, the parameter, a spare 0, the number, and the value.
///
/// # Errors
///
/// `NoRoom` (24) where the room has too few bytes; it is then as it was.
pub fn put_record(
    room: &mut [u8],
    sender: u8,
    code: u8,
    par: u8,
    number: u32,
    value: u32,
) -> Result<(), NoRoom>
    ensures result_value { code_of result ≡ put_code (record_bytes sender code par number value) room.old }
    ensures room_after { room.new ≡ written (record_bytes sender code par number value) room.old }
{
    let n = words::word_bytes(number);
    let v = words::word_bytes(value);
    let bytes = [
        sender, code, par, 0, n[0], n[1], n[2], n[3], v[0], v[1], v[2], v[3],
    ];
    words::put_bytes(room, &bytes)
}

// The number that a record carries, counted from 1.
fn number_in(report: &[u8], nth: u32) -> u32
    ensures { result ≡ number_in report.now nth }
{
    if nth == 0 {
        return 0;
    }
    words::word_at(report, (nth as usize - 1) * RECORD + NUMBER_AT)
}

// Its code.
fn code_in(report: &[u8], nth: u32) -> u8
    ensures { result ≡ code_in report.now nth }
{
    if nth == 0 {
        return 0;
    }
    words::byte_at(report, (nth as usize - 1) * RECORD + CODE_AT)
}

// How many of so many records have to be asked: none behind the report's end has a code, however many are said to be there.
fn asked_of(report: &[u8], count: u32) -> u32
    ensures result_value { last_failed report.now result ≡ last_failed report.now count }
    ensures upper_bound { result ≤ length report.now / record_length + 1 }
{
    let whole = report.len() / RECORD;
    if whole < count as usize {
        whole as u32 + 1
    } else {
        count
    }
}

// The last of so many records whose code is not 0, looked for from the last one back; 0 where there is none, of which `number_in` and `code_in` say 0. A loop,
// since for `find` over the same numbers no proof was found.
fn last_failed(report: &[u8], count: u32) -> u32
    ensures { result ≡ last_failed report.now count }
{
    for left in (1..=asked_of(report, count)).rev() {
        if code_in(report, left) != 0 {
            return left;
        }
    }
    0
}

/// What the last of so many records at the front of a report say.
pub fn latest_of(report: &[u8], count: u32) -> Latest
    ensures { result ≡ latest_of report.now count }
{
    let failed = last_failed(report, count);
    Latest {
        received: number_in(report, count),
        failed: number_in(report, failed),
        code: code_in(report, failed),
    }
}

impl Latest {
    /// Before the first run there is no record: three zeros.
    pub fn none() -> Latest
        ensures { result ≡ no_latest }
    {
        Latest::default()
    }
}
