//! The jobs that `speed/` measures: each function that `timing_c` hands to C does one job many times over, so that the call itself costs nothing, and folds
//! what comes out into one number, so that none of the work can be left out. Bytes go in and out as slices.
#![tactic(auto)]

use bench::Bench;
use card::Refused;
use frame::{Frame, Pace};
use housekeeping::Housekeeping;
use rescue::Rescued;
use std::array;
use store::Group;
use valve::{Act, Valve};
use wire::{Command, Kind, Tell, Told};
use words::Code;

// The commands that are read or written in turn, and how far apart they lie.
const COMMANDS: usize = 16;

const COMMAND: usize = 16;
// The frames that are read or written in turn.
const FRAMES: usize = 8;
// How many numbers are asked for: one and its neighbours.
const NEIGHBOURS: u64 = 4;

/// A number that depends on every number folded in so far.
pub fn mixed(sum: u64, value: u64) -> u64 {
    (sum ^ (sum / 8)).wrapping_add(value)
}

/// What comes out of a job.
pub trait Folded {
    /// The sum with all of it folded in.
    fn folded(&self, sum: u64) -> u64;
}

/// A command by its two arguments, and by its flag where that is set.
impl Folded for Command {
    fn folded(&self, sum: u64) -> u64 {
        let parts = wire::parts_of(self.kind);
        let first = mixed(sum, u64::from(parts.first));
        let second = mixed(first, u64::from(parts.second));
        if self.flag { mixed(second, 1) } else { second }
    }
}

/// A code, and what was wrong with the number.
impl Folded for Told {
    fn folded(&self, sum: u64) -> u64 {
        let stray = self.stray;
        let code = mixed(mixed(sum, u64::from(self.code)), u64::from(stray.par));
        let value = mixed(code, u64::from(stray.value));
        mixed(mixed(value, u64::from(stray.low)), u64::from(stray.high))
    }
}

impl Folded for Frame {
    fn folded(&self, sum: u64) -> u64 {
        let (image, track) = (self.image, self.track);
        let times = mixed(mixed(sum, u64::from(image.time)), u64::from(track.time));
        let intervals = mixed(
            mixed(times, u64::from(image.interval)),
            u64::from(track.interval),
        );
        let counts = mixed(
            mixed(intervals, u64::from(image.count)),
            u64::from(track.count),
        );
        let region = mixed(mixed(counts, u64::from(self.x)), u64::from(self.y));
        let goal = mixed(mixed(region, u64::from(self.xgoal)), u64::from(self.ygoal));
        let power = mixed(goal, u64::from(self.power));
        let auto = mixed(power, u64::from(self.auto));
        let looping = mixed(auto, u64::from(self.looping));
        let modes = mixed(
            mixed(looping, u64::from(self.algorithm)),
            u64::from(self.flushes),
        );
        let macros = mixed(
            mixed(modes, u64::from(self.running)),
            u64::from(self.opened),
        );
        mixed(mixed(macros, u64::from(self.left)), u64::from(self.closed))
    }
}

impl Folded for Housekeeping {
    fn folded(&self, sum: u64) -> u64 {
        let numbers = mixed(mixed(sum, u64::from(self.received)), u64::from(self.failed));
        mixed(mixed(numbers, u64::from(self.code)), u64::from(self.free))
    }
}

/// A valve's frame by its flags, whether it fires, and then with which code.
impl Folded for valve::Frame {
    fn folded(&self, sum: u64) -> u64 {
        let flags = mixed(mixed(sum, u64::from(self.ocpl)), u64::from(self.quiet));
        match self.act {
            Act::Arm => mixed(flags, 0),
            Act::Fire(code) => mixed(mixed(flags, 1), u64::from(code)),
        }
    }
}

/// How many bytes were written.
impl Folded for usize {
    fn folded(&self, sum: u64) -> u64 {
        mixed(sum, *self as u64)
    }
}

// What came out, or else the code.
fn with_answer<T: Folded, E: Code>(sum: u64, answer: &Result<T, E>) -> u64 {
    match answer {
        Ok(value) => value.folded(sum),
        Err(refusal) => mixed(sum, u64::from(refusal.code())),
    }
}

// What came out, or else the code and what was wrong with the number.
fn with_told_answer<T: Folded, E: Tell>(sum: u64, answer: &Result<T, E>) -> u64 {
    match answer {
        Ok(value) => value.folded(sum),
        Err(refusal) => refusal.told().folded(sum),
    }
}

// The code of an answer, 0 where nothing was refused.
fn with_code<T, E: Code>(sum: u64, answer: &Result<T, E>) -> u64 {
    mixed(sum, u64::from(words::code_of(answer)))
}

// How many entries a second handed over, and each of them by its words, as a command with its flag, and by its code.
fn with_group(sum: u64, group: &Group, codes: &[u8; 64]) -> u64 {
    let size = store::group_size(group.count);
    let mut sum = size.folded(sum);
    for i in 0..size {
        let first = mixed(sum, u64::from(group.words[i * 3 + 1]));
        let second = mixed(first, u64::from(group.words[i * 3 + 2]));
        sum = mixed(mixed(second, 1), u64::from(codes[i]));
    }
    sum
}

// So many bytes of each of eight parts that begin so far apart, in turn, so many times over; nothing where there is less.
fn parts_in_turn<F: FnMut(u64, &[u8]) -> u64>(
    bytes: &[u8],
    apart: usize,
    each: usize,
    times: u32,
    mut job: F,
) -> u64
    requires { F.IsAlwaysCallable job }
{
    if bytes.len() / FRAMES < apart || apart < each {
        return 0;
    }
    let mut sum = 0;
    for i in 0..times {
        let at = i as usize % FRAMES * apart;
        sum = job(sum, &bytes[at..at + each]);
    }
    sum
}

// So many bytes of each of eight parts of a room that begin so far apart, in turn, so many times over, each with a frame of its own; nothing where there
// is less.
fn rooms_in_turn<T: Copy, F: Fn(u64, T, &mut [u8]) -> u64>(
    frames: &[T; 8],
    room: &mut [u8],
    apart: usize,
    each: usize,
    times: u32,
    job: F,
) -> u64
    requires { F.IsAlwaysCallable job }
{
    if room.len() / FRAMES < apart || apart < each {
        return 0;
    }
    let mut sum = 0;
    for i in 0..times {
        let k = i as usize % FRAMES;
        let at = k * apart;
        sum = job(sum, frames[k], &mut room[at..at + each]);
    }
    sum
}

/// Reads a command so many times, in turn each of the sixteen that lie sixteen bytes apart.
pub fn timing_read(bytes: &[u8], times: u32) -> u64 {
    if bytes.len() < COMMANDS * COMMAND {
        return 0;
    }
    let mut sum = 0;
    for i in 0..times {
        let at = i as usize % COMMANDS * COMMAND;
        sum = with_told_answer(sum, &wire::read_command(&bytes[at..]));
    }
    sum
}

// A flush, which stands where there is no command.
const FLUSH: Command = Command {
    flag: false,
    kind: Kind::TlmFlush,
};

/// The command at the front; a flush where there is none.
pub fn command_of(bytes: &[u8]) -> Command {
    wire::read_command(bytes).unwrap_or(FLUSH)
}

fn commands_of(bytes: &[u8]) -> [Command; 16] {
    array::from_fn(|k| bytes.get(k * COMMAND..).map_or(FLUSH, command_of))
}

/// Writes a command so many times, in turn each of the sixteen that lie sixteen bytes apart in `bytes`, to the same place of the room.
pub fn timing_write(bytes: &[u8], room: &mut [u8], times: u32) -> u64 {
    if room.len() < COMMANDS * COMMAND {
        return 0;
    }
    let commands = commands_of(bytes);
    let mut sum = 0;
    for i in 0..times {
        let k = i as usize % COMMANDS;
        let at = k * COMMAND;
        sum = with_told_answer(sum, &wire::write_command(commands[k], &mut room[at..]));
    }
    sum
}

/// Reads a frame so many times, in turn each of the eight that lie one after another.
pub fn timing_frame_read(bytes: &[u8], times: u32) -> u64 {
    parts_in_turn(bytes, frame::SIZE, frame::SIZE, times, |sum, part| {
        with_answer(sum, &frame::read_frame(part))
    })
}

// An idle frame, which stands where there is none.
const IDLE: Frame = Frame {
    image: PACE,
    track: PACE,
    x: 0,
    y: 0,
    xgoal: 0,
    ygoal: 0,
    power: false,
    auto: false,
    looping: false,
    algorithm: 0,
    flushes: 0,
    running: 255,
    opened: 255,
    left: 0,
    closed: 0,
};

const PACE: Pace = Pace {
    time: 0,
    interval: 1,
    count: 0,
};

fn frames_of(bytes: &[u8]) -> [Frame; 8] {
    array::from_fn(|k| {
        let at = k * frame::SIZE;
        bytes
            .get(at..at + frame::SIZE)
            .map_or(IDLE, |part| frame::read_frame(part).unwrap_or(IDLE))
    })
}

/// Writes a frame so many times, in turn each of the eight that lie one after another in `bytes`, to the same place of the room.
pub fn timing_frame_write(bytes: &[u8], room: &mut [u8], times: u32) -> u64 {
    let frames = frames_of(bytes);
    rooms_in_turn(
        &frames,
        room,
        frame::SIZE,
        frame::SIZE,
        times,
        |sum, f, part| { with_code(sum, &frame::write_frame(f, part)) },
    )
}

// How far apart housekeeping frames begin, so that there are bytes behind each which may be left over.
const APART: usize = 32;

/// Reads a housekeeping frame so many times, in turn each of the eight that begin 32 bytes apart; so many bytes of each.
pub fn timing_housekeeping_read(bytes: &[u8], each: u32, times: u32) -> u64 {
    parts_in_turn(bytes, APART, each as usize, times, |sum, part| {
        with_answer(sum, &housekeeping::read_housekeeping(part))
    })
}

// Zeros, which stand where there is no frame.
const ZEROS: Housekeeping = Housekeeping {
    received: 0,
    failed: 0,
    code: 0,
    free: 0,
};

fn housekeepings_of(bytes: &[u8]) -> [Housekeeping; 8] {
    array::from_fn(|k| {
        let at = k * APART;
        let part = bytes.get(at..at + housekeeping::SIZE);
        part.map_or(
            ZEROS,
            |part| housekeeping::read_housekeeping(part).unwrap_or(ZEROS),
        )
    })
}

/// Writes a housekeeping frame so many times, in turn each of the eight that begin 32 bytes apart in `bytes`, to the same place of the room; each has
/// so many bytes of room.
pub fn timing_housekeeping_write(bytes: &[u8], room: &mut [u8], each: u32, times: u32) -> u64 {
    let frames = housekeepings_of(bytes);
    rooms_in_turn(&frames, room, APART, each as usize, times, |sum, h, part| {
        with_code(sum, &housekeeping::write_housekeeping(h, part))
    })
}

// How far apart a valve's frames begin, for the same.
const VALVE_APART: usize = 80;

/// Reads a valve's frame so many times, in turn each of the eight that begin 80 bytes apart; so many bytes of each.
pub fn timing_valve_read(bytes: &[u8], each: u32, times: u32) -> u64 {
    parts_in_turn(bytes, VALVE_APART, each as usize, times, |sum, part| {
        with_answer(sum, &valve::read_frame(part))
    })
}

// An arming frame without flags, which stands where there is none.
const ARMING: valve::Frame = valve::Frame {
    ocpl: false,
    quiet: false,
    act: Act::Arm,
};

fn valve_frames_of(bytes: &[u8]) -> [valve::Frame; 8] {
    array::from_fn(|k| {
        let at = k * VALVE_APART;
        bytes
            .get(at..at + valve::SIZE)
            .map_or(ARMING, |part| valve::read_frame(part).unwrap_or(ARMING))
    })
}

/// Writes a valve's frame so many times, in turn each of the eight that begin 80 bytes apart in `bytes`, to the same place of the room; each has so many
/// bytes of room.
pub fn timing_valve_write(bytes: &[u8], room: &mut [u8], each: u32, times: u32) -> u64 {
    let frames = valve_frames_of(bytes);
    rooms_in_turn(
        &frames,
        room,
        VALVE_APART,
        each as usize,
        times,
        |sum, f, part| { with_answer(sum, &valve::write_frame(f, part).map(|()| valve::SIZE)) },
    )
}

/// Has a fresh valve carry out so many frames, in turn each of the eight that begin 80 bytes apart, so many bytes of each; the code and the status word
/// behind each.
pub fn timing_valve_carry_out(bytes: &[u8], each: u32, times: u32) -> u64 {
    let mut valve = Valve::fresh();
    parts_in_turn(bytes, VALVE_APART, each as usize, times, |sum, part| {
        let carried = valve.carry_out(part);
        valve = carried.unwrap_or(valve);
        mixed(with_code(sum, &carried), u64::from(valve.status()))
    })
}

/// The fields of a bench's status, and the numbers of its housekeeping, which are those of the latest run and the free entries.
pub fn with_bench(sum: u64, bench: Bench) -> u64 {
    with_answer(with_answer(sum, &bench.status()), &bench.housekeeping())
}

/// Runs these two lists so many times, each time on a fresh bench; then the last one's status and housekeeping.
pub fn timing_run(kit: &[u8], pupil: &[u8], room: &mut [u8], times: u32) -> u64 {
    let mut sum = 0;
    let mut last = Bench::fresh();
    for _ in 0..times {
        match Bench::fresh().run(kit, pupil, room) {
            Ok(ran) => {
                sum = mixed(mixed(sum, u64::from(ran.kit)), u64::from(ran.pupil));
                last = ran.bench;
            }
            // A run that is refused has no records, and leaves its bench fresh.
            Err(_) => sum = mixed(mixed(sum, 0), 0),
        }
    }
    with_bench(sum, last)
}

/// A bench after some work, and what came out of it folded into one number.
#[derive(Clone, Copy)]
pub struct Later {
    pub bench: Bench,
    pub sum: u64,
}

// So many seconds pass.
fn passing(bench: Bench, sum: u64, seconds: u32) -> Later {
    let mut bench = bench;
    let mut sum = sum;
    for _ in 0..seconds {
        match bench.second() {
            Ok(passed) => {
                bench = passed.bench;
                sum = with_group(sum, &passed.group, &passed.codes);
            }
            // A second that does not pass hands nothing over.
            Err(_) => sum = mixed(sum, 0),
        }
    }
    Later { bench, sum }
}

// So many times over, this bench passes so many seconds; then the last one's status and housekeeping.
fn passing_again(start: Bench, seconds: u32, times: u32) -> u64 {
    let mut last = start;
    let mut sum = 0;
    for _ in 0..times {
        let done = passing(start, sum, seconds);
        last = done.bench;
        sum = done.sum;
    }
    with_bench(sum, last)
}

/// A fresh bench runs this list; then, so many times over, that bench passes so many seconds.
pub fn timing_seconds(list: &[u8], room: &mut [u8], seconds: u32, times: u32) -> u64 {
    let start = match Bench::fresh().run(&[], list, room) {
        Ok(ran) => ran.bench,
        Err(_) => Bench::fresh(),
    };
    passing_again(start, seconds, times)
}

// The code of a text or list with what was wrong with the number, the number of the line or command, and how many bytes were written.
fn with_translated(sum: u64, translated: &Result<usize, text::Refusal>) -> u64 {
    let found = text::finding_of(translated);
    let place = mixed(found.told.folded(sum), u64::from(found.number));
    translated.unwrap_or(0).folded(place)
}

/// Assembles a text so many times, to the same place of the room.
pub fn timing_assemble(typed: &[u8], room: &mut [u8], times: u32) -> u64 {
    let mut sum = 0;
    for _ in 0..times {
        sum = with_translated(sum, &text::assemble(typed, room));
    }
    sum
}

/// Lists a raw list so many times, to the same place of the room.
pub fn timing_list(raw: &[u8], room: &mut [u8], times: u32) -> u64 {
    let mut sum = 0;
    for _ in 0..times {
        sum = with_translated(sum, &text::list_text(raw, room));
    }
    sum
}

/// Builds the index of a list so many times, from the same offsets of an earlier one, to the same place of the room; then every offset in the room.
pub fn timing_index(list: &[u8], old: &[u16], room: &mut [u16], times: u32) -> u64 {
    let mut sum = 0;
    for _ in 0..times {
        let built = index::build(list, old, room);
        sum = built.unwrap_or(0).folded(with_code(sum, &built));
    }
    for &offset in room.iter() {
        sum = mixed(sum, u64::from(offset));
    }
    sum
}

/// A byte of what came out.
pub fn with_byte(sum: u64, byte: u8) -> u64 {
    mixed(sum, u64::from(byte))
}

// How many bytes a part has, and one of them, in turn each of the first sixteen: all would take longer than to look the part up.
fn with_part(sum: u64, part: &[u8], turn: u32) -> u64 {
    let size = part.len().folded(sum);
    match part.get(turn as usize % COMMAND) {
        Some(&byte) => with_byte(size, byte),
        None => size,
    }
}

// The number to ask for: this one or a neighbour, which differs from it in the last two bits. It hangs on what came out so far, so that none can be
// asked for before the one before it is answered.
fn number_of(number: u32, sum: u64) -> u32 {
    number ^ (sum % NEIGHBOURS) as u32
}

/// Looks a command up through these offsets so many times.
pub fn timing_look_up(list: &[u8], offsets: &[u16], number: u32, times: u32) -> u64 {
    let mut sum = 0;
    for i in 0..times {
        let part = index::look_up(list, offsets, number_of(number, sum));
        sum = with_part(sum, part, i);
    }
    sum
}

/// Shows a command so many times, by a walk from the start of its sender's list.
pub fn timing_shown(kit: &[u8], pupil: &[u8], sender: u8, number: u32, times: u32) -> u64 {
    let mut sum = 0;
    for i in 0..times {
        let part = walk::shown(kit, pupil, sender, number_of(number, sum));
        sum = with_part(sum, part, i);
    }
    sum
}

// The code of a moved list with what was wrong with the number, the number of the command, and how many bytes were written.
fn with_moved(sum: u64, moved: &Result<usize, Refused>) -> u64 {
    let told = wire::told_of(moved).folded(sum);
    let number = mixed(told, u64::from(card::number_of(moved)));
    moved.unwrap_or(0).folded(number)
}

/// Moves a raw list to a card so many times, to the same place of the room.
pub fn timing_to_card(list: &[u8], room: &mut [u8], times: u32) -> u64 {
    let mut sum = 0;
    for _ in 0..times {
        sum = with_moved(sum, &card::to_card(list, room));
    }
    sum
}

/// Moves a stored list from a card so many times, to the same place of the room.
pub fn timing_from_card(stored: &[u8], room: &mut [u8], times: u32) -> u64 {
    let mut sum = 0;
    for _ in 0..times {
        sum = with_moved(sum, &card::from_card(stored, room));
    }
    sum
}

// The code of a rescue, how many bytes were kept, and how many stretches were skipped.
fn with_rescued(sum: u64, rescued: &Result<Rescued, rescue::Refusal>) -> u64 {
    let code = with_code(sum, rescued);
    match rescued {
        Ok(done) => done.stretches.folded(done.kept.folded(code)),
        Err(_) => mixed(mixed(code, 0), 0),
    }
}

/// Rescues a damaged list so many times, to the same place of the room and of the table.
pub fn timing_rescue(list: &[u8], room: &mut [u8], table: &mut [u8], times: u32) -> u64 {
    let mut sum = 0;
    for _ in 0..times {
        sum = with_rescued(sum, &rescue::rescue(list, room, table));
    }
    sum
}
