//! Reading the command at the front of some bytes: codes 1 to 10, in that order, and how far that command reaches.
ghost use Rattle.std.specs.Prelude.{◌≡◌, ◌≤◌, cond, length, eqb, Err};
ghost use Rattle.wire.specs.Table.{row_of};
ghost use Rattle.wire.specs.Read.{fields_with, fields_of, sum_of, third_word, answer_of, read_of, span_of};
ghost use Rattle.wire.specs.Steps.{decoded_as, decoded, read_whole, reach_of, reach_at};

use super::judging::{Refusal, judge_by};
use super::kinds::{Command, kind_of};
use super::table::{Form, Layout, Row, row_of, rule_of};

// The arguments in the words behind the first, and what stands in their pad.
#[derive(Drop)]
struct Fields {
    pub first: u32,
    pub second: u32,
    pub pad: u32,
}

// What the words of a command say beside its opcode: the flag, the length, and the two words behind the first.
#[derive(Drop)]
struct Encoded {
    pub flag: bool,
    pub length: u16,
    pub one: u32,
    pub two: u32,
}

// The shortest command, in bytes, and the bounds of its length, in words.
const SHORTEST: usize = 8;

const FEWEST_WORDS: u16 = 2;

const MOST_WORDS: u16 = 32;

const FLAG_BIT: u16 = 32768;

// With it `fields_of` has a line to each layout.
fn fields_with(first: u32, second: u32, pad: u32) -> Fields
    ensures { result ≡ fields_with first second pad }
{
    Fields { first, second, pad }
}

// The words behind the first, taken apart.
fn fields_of(layout: Layout, one: u32, two: u32) -> Fields
    ensures { result ≡ fields_of layout one two }
{
    match layout {
        Layout::Bare => fields_with(0, 0, 0),
        Layout::Byte => fields_with(one / 16777216, 0, one % 16777216),
        Layout::Half => fields_with(one / 65536, 0, one % 65536),
        Layout::Halves => fields_with(one / 65536, one % 65536, 0),
        Layout::Singles => fields_with(one, two, 0),
    }
}

// Codes 6 to 10, once the form and its row are known.
fn decode_as(form: Form, row: Row, words: u16, encoded: Encoded) -> Result<Command, Refusal>
    requires { row ≡ row_of form }
    ensures { answer_of result ≡ cond (eqb encoded.length words)
        (decoded_as form encoded.flag encoded.one encoded.two)
        (answer_of (Err Refusal.WrongLength)) }
{
    if encoded.length != words {
        return Err(Refusal::WrongLength);
    }
    let fields = fields_of(row.layout, encoded.one, encoded.two);
    if fields.pad != 0 {
        return Err(Refusal::PadNotZero);
    }
    judge_by(row, encoded.flag, fields.first, fields.second)?;
    Ok(Command {
        flag: encoded.flag,
        kind: kind_of(form, fields.first, fields.second),
    })
}

// The same, from the form alone. Each arm names its form anew, for there it is a constant, and the compiler settles the form's layout, limits and flag rule
// for good; handed on as `form`, they would be looked up for every command that is read (speed/README.md has the figures).
fn decode_form(form: Form, words: u16, encoded: Encoded) -> Result<Command, Refusal>
    ensures { answer_of result ≡ cond (eqb encoded.length words)
        (decoded_as form encoded.flag encoded.one encoded.two)
        (answer_of (Err Refusal.WrongLength)) }
{
    match form {
        Form::ImgPwr => decode_as(Form::ImgPwr, row_of(Form::ImgPwr), words, encoded),
        Form::ImgRegion => decode_as(Form::ImgRegion, row_of(Form::ImgRegion), words, encoded),
        Form::ImgTrack => decode_as(Form::ImgTrack, row_of(Form::ImgTrack), words, encoded),
        Form::TrkAlg => decode_as(Form::TrkAlg, row_of(Form::TrkAlg), words, encoded),
        Form::TrkLoop => decode_as(Form::TrkLoop, row_of(Form::TrkLoop), words, encoded),
        Form::ImgImage => decode_as(Form::ImgImage, row_of(Form::ImgImage), words, encoded),
        Form::TrkGoal => decode_as(Form::TrkGoal, row_of(Form::TrkGoal), words, encoded),
        Form::TlmFlush => decode_as(Form::TlmFlush, row_of(Form::TlmFlush), words, encoded),
        Form::FlushAuto => decode_as(Form::FlushAuto, row_of(Form::FlushAuto), words, encoded),
        Form::Open => decode_as(Form::Open, row_of(Form::Open), words, encoded),
        Form::Close => decode_as(Form::Close, row_of(Form::Close), words, encoded),
        Form::Run => decode_as(Form::Run, row_of(Form::Run), words, encoded),
        Form::Wait => decode_as(Form::Wait, row_of(Form::Wait), words, encoded),
        Form::Stop => decode_as(Form::Stop, row_of(Form::Stop), words, encoded),
        Form::Clear => decode_as(Form::Clear, row_of(Form::Clear), words, encoded),
    }
}

// Codes 5 to 10, from the opcode and what stands beside it.
fn decode(opcode: u16, encoded: Encoded) -> Result<Command, Refusal>
    ensures { answer_of result ≡ decoded opcode encoded.flag encoded.length encoded.one encoded.two }
{
    match rule_of(opcode) {
        None => Err(Refusal::UnknownOpcode),
        Some((form, words)) => decode_form(form, words, encoded),
    }
}

// The XOR of the first n words. All commands of the table have up to three words before their last: those need no loop.
fn sum_of(s: &[u8], n: usize) -> u32
    requires { n ≤ 32 }
    ensures { result ≡ sum_of s.now n }
{
    match n {
        1 => words::word_at(s, 0),
        2 => words::word_at(s, 0) ^ words::word_at(s, 4),
        3 => words::word_at(s, 0) ^ words::word_at(s, 4) ^ words::word_at(s, 8),
        _ => {
            let mut sum: u32 = 0;
            for i in 0..n {
                sum ^= words::word_at(s, i * words::WORD);
            }
            sum
        }
    }
}

// Codes 1 to 3: does a whole command stand at the front?
fn reach_of(s: &[u8]) -> Result<u16, Refusal>
    ensures { reach_of result ≡ reach_at s.now }
{
    if s.len() < SHORTEST {
        return Err(Refusal::TooFewBytes);
    }
    let length = words::half_at(s, 2) % FLAG_BIT;
    if length < FEWEST_WORDS || MOST_WORDS < length {
        return Err(Refusal::LengthOutOfBounds);
    }
    if s.len() < length as usize * words::WORD {
        return Err(Refusal::CutOff);
    }
    Ok(length)
}

// The third word of a command that has four; 0 for a shorter one, so that nothing behind the command is looked at.
fn third_word(s: &[u8], length: u16) -> u32
    ensures { result ≡ third_word s.now length }
{
    if length < 4 { 0 } else { words::word_at(s, 8) }
}

// Codes 4 to 10, where a whole command of this length stands at the front.
fn read_whole(s: &[u8], length: u16) -> Result<Command, Refusal>
    requires { (2 ≤ length) × (length ≤ 32) }
    ensures { answer_of result ≡ read_whole s.now length }
{
    let last = length as usize - 1;
    if sum_of(s, last) != words::word_at(s, last * words::WORD) {
        return Err(Refusal::SumDiffers);
    }
    let encoded = Encoded {
        flag: FLAG_BIT <= words::half_at(s, 2),
        length,
        one: words::word_at(s, 4),
        two: third_word(s, length),
    };
    decode(words::half_at(s, 0), encoded)
}

/// The command at the front of these bytes.
///
/// # Errors
///
/// Codes 1 to 10, the first that is due in that order. Rules: "A command on the wire", "Codes, in the order they are tried".
pub fn read_command(s: &[u8]) -> Result<Command, Refusal>
    ensures { answer_of result ≡ read_of s.now }
{
    let length = reach_of(s)?;
    read_whole(s, length)
}

/// How many bytes the command at the front takes: all of them where codes 1 to 3 end the list.
pub fn span(s: &[u8]) -> usize
    ensures { result ≡ span_of s.now }
{
    match reach_of(s) {
        Ok(length) => length as usize * words::WORD,
        Err(_) => s.len(),
    }
}
