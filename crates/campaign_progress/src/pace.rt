//! How fast plans end.
ghost use Rattle.std.specs.Prelude.{◌≡◌, Some};
ghost use Rattle.campaign_progress.specs.Line.{pace_of, pace_text, time_text};

use std::fmt;

/// How fast the plans of a stage end.
#[derive(Clone, Copy, Debug)]
pub enum Pace {
    /// The pace isn't known: less than a second of the stage has gone, or none of its plans has ended.
    Unknown,
    /// How many plans end in a second, rounded down, and how many seconds the rest takes at this rate, rounded up.
    Known { rate: u64, left: u64 },
}

impl Pace {
    /// The pace, if `ended` of the expected plans have ended in this many milliseconds.
    pub fn of(ended: u32, expected: u32, elapsed: u32) -> Self
        ensures { result ≡ pace_of ended expected elapsed }
    {
        if elapsed < 1000 || ended == 0 {
            return Pace::Unknown;
        }
        let thousands = u64::from(ended) * 1000;
        let rest = u64::from(expected.saturating_sub(ended));
        Pace::Known {
            rate: thousands / u64::from(elapsed),
            left: (rest * u64::from(elapsed)).div_ceil(thousands),
        }
    }
}

impl fmt::Display for Pace {
    ghost output = { λ pace. Some (pace_text pace) };

    fn fmt<W: fmt::Write>(&self, f: &mut fmt::Formatter<W>) -> fmt::Result {
        match self {
            Pace::Unknown => Ok(()),
            Pace::Known { rate, left } => {
                let left = Remaining { seconds: *left };
                write!(f, ", {rate} a second, {left} left")
            }
        }
    }
}

// A number of seconds as hours, minutes and seconds.
#[derive(Clone, Copy)]
struct Remaining {
    seconds: u64,
}

impl fmt::Display for Remaining {
    ghost output = { λ remaining. Some (time_text remaining.seconds) };

    fn fmt<W: fmt::Write>(&self, f: &mut fmt::Formatter<W>) -> fmt::Result {
        let hours = self.seconds / 3600;
        let (minutes, seconds) = (self.seconds / 60 % 60, self.seconds % 60);
        write!(
            f,
            "{hours}:{}{}:{}{}",
            minutes / 10,
            minutes % 10,
            seconds / 10,
            seconds % 10
        )
    }
}
