//! Quiet verbs: they make the bench of the lines that follow, and print nothing.
//! `do` carries out commands given in bytes, one after another; `times`, with a count in front, does so again and again; `pass` lets seconds pass.
use super::lines;
use bench::Bench;
use walk::Commands;

/// `do`: the bench after these commands; one that is refused leaves it as it is.
pub fn commands(mut b: Bench, s: &[u8]) -> Bench {
    for rest in Commands::new(s) {
        if let Ok(next) = b.carry_out_bytes(rest) {
            b = next;
        }
    }
    b
}

/// `times`: the bench after so many turns of these commands.
pub fn times(mut b: Bench, s: &[u8]) -> Bench {
    for _ in 0..words::half_at(s, 0) {
        b = commands(b, lines::rest(s, 2));
    }
    b
}

/// `pass`: the bench after so many seconds.
pub fn pass(mut b: Bench, s: &[u8]) -> Bench {
    for _ in 0..words::half_at(s, 0) {
        if let Ok(passed) = b.second() {
            b = passed.bench;
        }
    }
    b
}
