//! `set` writes fields of the bench whatever the rules say, so that unsound states can be made: one byte says which, and their values come behind it.
//! Any other byte, and none at all, leaves the bench as it is.
use super::compare::WORDS;
use bench::Bench;
use camera::{Camera, Series};
use report::Latest;
use store::Store;

// What the first byte says. Of a series come time, interval, next and the images so far; with ROLES the running macro, the open one and the
// seconds left; of a macro its number, how many entries it has, and 1 where it is closed; of an entry its place in the pool and its flag, opcode and
// arguments, or its place and its three words as they are; of the latest run its last received and last failed number, and the code of that.
const IMAGE: u8 = 1;

const TRACK: u8 = 2;

const REGION: u8 = 3;

const GOAL: u8 = 4;

const ALGORITHM: u8 = 5;

const ROLES: u8 = 6;

const MACRO: u8 = 7;

const ENTRY: u8 = 8;

const ENTRY_WORDS: u8 = 9;

const LATEST: u8 = 10;

// The series that a line says; the images so far are none where they are left out.
fn series(s: &[u8]) -> Series {
    Series {
        time: words::half_at(s, 1),
        interval: words::half_at(s, 3),
        next: words::half_at(s, 5),
        count: words::half_at(s, 7),
    }
}

// The camera with the line's fields in it.
fn with_camera(camera: Camera, s: &[u8]) -> Camera {
    let given = series(s);
    match words::byte_at(s, 0) {
        IMAGE => Camera {
            image: given,
            ..camera
        },
        TRACK => Camera {
            track: given,
            ..camera
        },
        REGION => Camera {
            x: words::half_at(s, 1),
            y: words::half_at(s, 3),
            ..camera
        },
        GOAL => Camera {
            xgoal: words::word_at(s, 1),
            ygoal: words::word_at(s, 5),
            ..camera
        },
        ALGORITHM => Camera {
            algorithm: words::byte_at(s, 1),
            ..camera
        },
        _ => camera,
    }
}

// The store with a macro's count and its closed mark.
fn with_macro(mut store: Store, s: &[u8]) -> Store {
    let m = words::byte_at(s, 1) as usize;
    if m < store::MACROS {
        store.counts[m] = words::byte_at(s, 2);
        store.closed[m] = words::byte_at(s, 3) == 1;
    }
    store
}

// The store with these words as an entry of the pool.
fn with_words(mut store: Store, place: u8, entry: [u32; 3]) -> Store {
    let at = usize::from(place) * 3;
    if at + 2 < WORDS {
        store.pool[at..at + 3].copy_from_slice(&entry);
    }
    store
}

// The store with a flag, an opcode and two arguments as an entry, whatever they are.
fn with_entry(store: Store, s: &[u8]) -> Store {
    let flag = u32::from(words::byte_at(s, 2) % 2);
    let head = u32::from(words::half_at(s, 3)) * 2 + flag;
    let entry = [head, words::word_at(s, 5), words::word_at(s, 9)];
    with_words(store, words::byte_at(s, 1), entry)
}

// The store with the line's fields in it.
fn with_store(store: Store, s: &[u8]) -> Store {
    match words::byte_at(s, 0) {
        ROLES => Store {
            running: words::byte_at(s, 1),
            opened: words::byte_at(s, 2),
            left: words::half_at(s, 3),
            ..store
        },
        MACRO => with_macro(store, s),
        ENTRY => with_entry(store, s),
        ENTRY_WORDS => {
            let entry = [
                words::word_at(s, 2),
                words::word_at(s, 6),
                words::word_at(s, 10),
            ];
            with_words(store, words::byte_at(s, 1), entry)
        }
        _ => store,
    }
}

// The numbers of the latest run, the line's where it says so.
fn with_latest(latest: Latest, s: &[u8]) -> Latest {
    match words::byte_at(s, 0) {
        LATEST => Latest {
            received: words::word_at(s, 1),
            failed: words::word_at(s, 5),
            code: words::byte_at(s, 9),
        },
        _ => latest,
    }
}

/// `set`: the bench with the line's fields in it.
pub fn set(b: Bench, s: &[u8]) -> Bench {
    Bench {
        camera: with_camera(b.camera, s),
        store: with_store(b.store, s),
        latest: with_latest(b.latest, s),
    }
}
