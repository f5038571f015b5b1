//! The camera's fields and its two series of images: what an executed command sets, which one asks for pictures in the dark, what a second does, and how
//! many pictures a series takes. Macro commands are not the camera's: executing one leaves it as it is.
#![tactic(auto)]

ghost use Rattle.std.specs.Prelude.{◌≡◌};
ghost use Rattle.camera.specs.Series.{fresh_series, started_of, time_after, second_of, next_holds};
ghost use Rattle.camera.specs.Camera.{fresh_camera, executed_of, camera_second, dark};
ghost use Rattle.camera.specs.Pictures.{counted_seconds, rounded_up, pictures_of};

use wire::Kind;

/// A series of images: the seconds that it still runs, 65535 of them for ever, the interval in seconds, the seconds to the next image, the images so far.
#[derive(Clone, Copy, Debug, PartialEq, Eq)]
pub struct Series {
    pub time: u16,
    pub interval: u16,
    pub next: u16,
    pub count: u16,
}

// A time that never counts down. It is the command's own number, on the wire and in the status frame, so that a time is no enum.
const FOR_EVER: u16 = 65535;

// The time after a second.
fn time_after(time: u16) -> u16
    ensures { result ≡ time_after time }
{
    if time == FOR_EVER {
        return FOR_EVER;
    }
    time.saturating_sub(1)
}

impl Series {
    fn fresh() -> Series
        ensures { result ≡ fresh_series }
    {
        Series {
            time: 0,
            interval: 1,
            next: 0,
            count: 0,
        }
    }

    // A series that supersedes this one; its first image comes in the next second.
    fn started(self, time: u16, interval: u16) -> Series
        ensures { result ≡ started_of self time interval }
    {
        Series {
            time,
            interval,
            next: 1,
            ..self
        }
    }

    // What one second does.
    #[tactic(auto, unfolding(crate::specs::Series::second_of))]
    fn second(self) -> Series
        ensures { result ≡ second_of self }
    {
        if self.time == 0 {
            return self;
        }
        let time = time_after(self.time);
        if self.next <= 1 {
            Series {
                time,
                next: self.interval,
                count: self.count.wrapping_add(1),
                ..self
            }
        } else {
            Series {
                time,
                next: self.next - 1,
                ..self
            }
        }
    }

    /// Is the next image due within the interval, wherever the series runs? Rules: "Sound states".
    pub fn is_paced(self) -> bool
        ensures { result ≡ next_holds self }
    {
        self.time == 0 || (1 <= self.next && self.next <= self.interval)
    }
}

/// The fields that executed commands set. The goal's numbers are the bits of its singles.
#[derive(Clone, Copy, Debug, PartialEq, Eq)]
pub struct Camera {
    pub image: Series,
    pub track: Series,
    pub x: u16,
    pub y: u16,
    pub xgoal: u32,
    pub ygoal: u32,
    pub power: bool,
    pub auto: bool,
    pub looping: bool,
    pub algorithm: u8,
    pub flushes: u8,
}

impl Camera {
    /// A camera to which nothing was sent yet: all numbers are 0 but the intervals, which are 1. Rules: "Fresh".
    pub fn fresh() -> Camera
        ensures { result ≡ fresh_camera }
    {
        Camera {
            image: Series::fresh(),
            track: Series::fresh(),
            x: 0,
            y: 0,
            xgoal: 0,
            ygoal: 0,
            power: false,
            auto: false,
            looping: false,
            algorithm: 0,
            flushes: 0,
        }
    }

    /// The camera after an executed command, which takes effect at once. Rules: "Bench, seconds and macros".
    // Tried: without the hint; the compiler then calls it in the loop of a run, and the camera goes through memory for each command; slower (one plain
    // command 57 ns, 34 with it), so it is put in place.
    #[inline(always)]
    pub fn executed(self, kind: Kind) -> Camera
        ensures { result ≡ executed_of self kind }
    {
        match kind {
            Kind::ImgPwr(mode) => Camera {
                power: mode == 1,
                ..self
            },
            Kind::ImgRegion(x, y) => Camera { x, y, ..self },
            Kind::ImgTrack(time, interval) => Camera {
                track: self.track.started(time, interval),
                ..self
            },
            Kind::TrkAlg(mode) => Camera {
                algorithm: mode,
                ..self
            },
            Kind::TrkLoop(mode) => Camera {
                looping: mode == 1,
                ..self
            },
            Kind::ImgImage(time, interval) => Camera {
                image: self.image.started(time, interval),
                ..self
            },
            // A goal may be a not-a-number, of which `to_bits` says nothing; `parts_of` gives its bits.
            Kind::TrkGoal(_, _) => {
                let goal = wire::parts_of(kind);
                Camera {
                    xgoal: goal.first,
                    ygoal: goal.second,
                    ..self
                }
            }
            Kind::TlmFlush => Camera {
                flushes: self.flushes.wrapping_add(1),
                ..self
            },
            Kind::FlushAuto(mode) => Camera {
                auto: mode == 1,
                ..self
            },
            Kind::Open(_) | Kind::Close | Kind::Run(_) | Kind::Wait(_) | Kind::Stop | Kind::Clear =>
                self,
        }
    }

    /// The camera after the first of the two things that a second does: each series takes its step. Rules: "One second".
    pub fn second(self) -> Camera
        ensures { result ≡ camera_second self }
    {
        Camera {
            image: self.image.second(),
            track: self.track.second(),
            ..self
        }
    }
}

/// Does this command ask for pictures with the power off? With a time of 0 none are asked for: it ends a series. Rules: "Pictures in the dark".
pub fn is_dark(power: bool, kind: Kind) -> bool
    ensures { result ≡ dark power kind }
{
    match kind {
        Kind::ImgTrack(time, _) | Kind::ImgImage(time, _) => 0 < time && !power,
        _ => false,
    }
}

// Of so many seconds those in which a series of this time counts.
fn counted_seconds(time: u16, seconds: u32) -> u32
    ensures { result ≡ counted_seconds time seconds }
{
    if time == FOR_EVER {
        return seconds;
    }
    seconds.min(u32::from(time))
}

// Seconds divided by an interval, rounded up; 0 where there is no interval.
fn rounded_up(seconds: u32, interval: u32) -> u32
    ensures { result ≡ rounded_up seconds interval }
{
    if interval == 0 {
        return 0;
    }
    seconds.div_ceil(interval)
}

/// How many pictures a series takes in so many seconds, from the moment when it was started with this time and interval. Rules: "How many pictures".
pub fn pictures(time: u16, interval: u16, seconds: u32) -> u32
    ensures { result ≡ pictures_of time interval seconds }
{
    rounded_up(counted_seconds(time, seconds), u32::from(interval))
}
