//! Cases by name: each line of standard input, `VERB WHAT IS TRIED: BYTES`, is tried and printed as `VERB WHAT IS TRIED: ANSWER`.
//! A bench goes from line to line: a few quiet verbs, which print nothing, make the one that the next lines ask.
//! The cases stand in this crate's `stdin`, by theme, and the answers that the rules ask for in its `stdout`; what is printed must equal them.
#![tactic(auto)]

mod asking;
mod cards;
mod compare;
mod decoded;
mod frames;
mod indexes;
mod lines;
mod lists;
mod making;
mod notation;
mod reading;
mod rescues;
mod rooms;
mod say;
mod seated;
mod seating;
mod setting;
mod states;
mod tags;
mod telling;
mod texts;
mod valves;

use bench::Bench;

// The longest input, and the most bytes of one line.
const TEXT: usize = 524288;

const BYTES: usize = 40000;

// Verbs that leave the bench of the lines as it is: what it answers itself, four seats around it, and all that asks no bench.
fn looked(b: Bench, verb: &[u8], s: &[u8]) {
    match verb {
        b"status" => telling::status(b"", b),
        b"free" => telling::free(b"free ", b),
        b"housekeeping" => telling::kept(b"", b),
        b"state" => states::state(setting::set(b, s)),
        b"run" => lists::run(b, s),
        b"typed" => texts::typed(b, s),
        b"shown" => lists::shown(s),
        b"queue" => seated::queue(b, s),
        b"turn" => seated::turn(b, s),
        b"seats" => seated::each(b, s),
        b"read" => reading::read(s),
        b"span" => say::number(wire::span(s) as u64),
        b"again" => reading::again(s),
        b"judge" => decoded::judge(s),
        b"write" => decoded::write(s),
        b"pictures" => decoded::pictures(s),
        b"assemble" => texts::assemble(s),
        b"list" => texts::list(s),
        b"letters" => texts::letters(s),
        b"line" => texts::line(s),
        b"index" => indexes::build(s),
        b"grow" => indexes::grow(s),
        b"find" => indexes::find(s),
        b"jump" => indexes::jump(s),
        b"frame" => frames::read(s),
        b"values" => frames::values(s),
        b"put" => frames::write(s),
        b"tags" => tags::read(s),
        b"pack" => tags::write(s),
        b"gas" => valves::read(s),
        b"valve" => valves::carry_out(s),
        b"save" => cards::save(s),
        b"load" => cards::load(s),
        b"rescue" => rescues::rescue_list(s),
        _ => say::text(b"no such verb"),
    }
}

// Verbs that change it and say what came of it, and else the others that print.
fn answered(b: Bench, verb: &[u8], s: &[u8]) -> Bench {
    match verb {
        b"step" => asking::carried(b, b.carry_out(decoded::command(s))),
        b"bytes" => asking::carried(b, b.carry_out_bytes(s)),
        b"second" => asking::second(b),
        b"runs" => lists::go_on(b, s),
        b"types" => texts::go_on(b, s),
        _ => {
            looked(b, verb, s);
            b
        }
    }
}

// The verbs that print: what is tried, and the answer.
fn printed(b: Bench, line: &[u8], s: &[u8]) -> Bench {
    say::text(lines::label(line));
    say::text(b": ");
    let next = answered(b, lines::verb(line), s);
    say::text(b"\n");
    next
}

// The quiet verbs, and else those that print.
fn tried(b: Bench, line: &[u8], s: &[u8]) -> Bench {
    match lines::verb(line) {
        b"fresh" => Bench::fresh(),
        b"do" => making::commands(b, s),
        b"times" => making::times(b, s),
        b"pass" => making::pass(b, s),
        b"set" => setting::set(b, s),
        _ => printed(b, line, s),
    }
}

// The bench after a line. A blank line or one that begins with `#` is for the reader alone.
fn case(b: Bench, line: &[u8]) -> Bench {
    if matches!(line, [] | [b'#', ..]) {
        return b;
    }
    let mut room = [0u8; BYTES];
    let count = notation::bytes(line, &mut room);
    if room.len() < count {
        say::text(b"too many bytes\n");
        return b;
    }
    tried(b, line, lines::part(&room, 0, count))
}

// Each line takes the bench that the one before it left, the first a fresh one.
fn each(text: &[u8]) {
    let mut b = Bench::fresh();
    for line in text.split(|&c| c == b'\n') {
        b = case(b, line);
    }
}

// The room that the input is read into.
fn text_room() -> [u8; TEXT] {
    [0u8; TEXT]
}

// Tries every line of the input.
fn main() {
    let mut text = text_room();
    let count = io::read_full(0, &mut text);
    each(&text[..count]);
    if count == TEXT {
        say::text(b"there may be more lines than fit\n");
    }
}
