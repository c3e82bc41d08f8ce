//! A gate that shows how far the work is.
use crate::pace::Pace;
use crate::shown::Shown;
use crate::told::{Standing, Told};
use command_words::ProgressForm;
use std::io::Eprint;
use std::rt::Clock;
use std::sync::Mutex;
use std::sync::atomic::{AtomicBool, AtomicU32, AtomicU64, Ordering};
use work_gate::{Ended, Gate, Phase, Stage};

/// The least number of milliseconds between two texts of the line that is written over.
const LINE_PAUSE: u64 = 100;

/// The least number of milliseconds between two plain lines of a stage.
const PLAIN_PAUSE: u64 = 5000;

/// A gate that holds nobody, and shows on standard error how far plans, or tests of reductions, are.
///
/// It shows one line that is written over, at most ten times a second of the clock; or plain lines, one when the first plan of a stage or the first
/// test begins, and at most one every five seconds after it. It shows nothing if the clock can't be read or standard error takes nothing.
/// [`crate::Cleared`] clears the line that is written over before anything else is written.
#[derive(Drop)]
pub struct Progress<'a, H: Clock + Eprint> {
    rt: &'a H,
    form: ProgressForm,
    counts: Counts,
    tests: AtomicU32,
    // The stage. Whoever writes a line holds it meanwhile.
    course: Mutex<Course>,
    // The time from which on the next line may be written, in milliseconds of the clock.
    due: AtomicU64,
    // Whether the line that is written over stands there.
    stands: AtomicBool,
}

// The plans that are run now.
#[derive(Clone, Copy)]
struct Course {
    stage: Stage,
    expected: u32,
    // When their stage began, in milliseconds of the clock. None if the clock couldn't be read.
    began: Option<u64>,
}

// What has been heard of plans: of those that are run now, and of all plans where a field says so.
#[derive(Drop)]
struct Counts {
    begun: AtomicU32,
    ended: AtomicU32,
    children: AtomicU32,
    // For all plans so far.
    failing: AtomicU32,
}

impl Counts {
    fn new() -> Self {
        Counts {
            begun: AtomicU32::new(0),
            ended: AtomicU32::new(0),
            children: AtomicU32::new(0),
            failing: AtomicU32::new(0),
        }
    }

    // A stage is about to begin.
    fn begin_stage(&self) {
        self.begun.store(0, Ordering::SeqCst);
        self.ended.store(0, Ordering::SeqCst);
        self.children.store(0, Ordering::SeqCst);
    }

    fn add(&self, ended: Ended) {
        self.ended.fetch_add(ended.plans, Ordering::SeqCst);
        self.failing.fetch_add(ended.failing, Ordering::SeqCst);
        self.children.fetch_add(ended.children, Ordering::SeqCst);
    }
}

impl<'a, H: Clock + Eprint> Progress<'a, H> {
    /// A gate by this clock that shows the work in this form. No work has begun.
    pub fn new(rt: &'a H, form: ProgressForm) -> Self {
        Progress {
            rt,
            form,
            counts: Counts::new(),
            tests: AtomicU32::new(0),
            course: Mutex::new(Course {
                stage: Stage::Listed,
                expected: 0,
                began: None,
            }),
            due: AtomicU64::new(0),
            stands: AtomicBool::new(false),
        }
    }

    /// Clears the line that is written over, if it stands there. Call it when no work runs.
    pub fn clear(&self) {
        if self.stands.swap(false, Ordering::SeqCst) {
            let _ = self.rt.eprint(Shown::Nothing);
        }
    }

    // A log has a line when a stage begins, however soon after the last line.
    fn begin_plain(&self) {
        if self.form == ProgressForm::Plain {
            self.due.store(0, Ordering::SeqCst);
        }
    }

    // What the clock says, in milliseconds. None if it can't be read.
    fn now(&self) -> Option<u64> {
        match self.rt.monotonic() {
            Ok(time) => Some(
                time.as_secs()
                    .saturating_mul(1000)
                    .saturating_add(u64::from(time.subsec_millis())),
            ),
            Err(_) => None,
        }
    }

    // Shows how far this work is, unless it is too early for one more line, or another worker writes one now.
    fn show(&self, phase: Phase) {
        let Some(now) = self.now() else {
            return;
        };
        if now < self.due.load(Ordering::SeqCst) {
            return;
        }
        let Some(course) = self.course.try_lock() else {
            return;
        };
        // Another worker may have written one since.
        if now < self.due.load(Ordering::SeqCst) {
            return;
        }
        let told = match phase {
            Phase::Plans => Told::Plans(self.standing(*course, now)),
            Phase::Requests => Told::Tests {
                begun: self.tests.load(Ordering::SeqCst),
            },
        };
        self.write(told, now);
    }

    fn standing(&self, course: Course, now: u64) -> Standing {
        let ended = self.counts.ended.load(Ordering::SeqCst);
        let elapsed = match course.began {
            Some(began) => now.saturating_sub(began),
            None => 0,
        };
        let elapsed = u32::try_from(elapsed).unwrap_or(u32::MAX);
        Standing {
            stage: course.stage,
            begun: self.counts.begun.load(Ordering::SeqCst),
            expected: course.expected,
            failing: self.counts.failing.load(Ordering::SeqCst),
            pace: Pace::of(ended, course.expected, elapsed),
            children: self.counts.children.load(Ordering::SeqCst),
        }
    }

    // Writes this. If standard error doesn't take it, nothing else changes.
    fn write(&self, told: Told, now: u64) {
        let (shown, pause) = match self.form {
            ProgressForm::Off => return,
            ProgressForm::Line => (Shown::Over(told), LINE_PAUSE),
            ProgressForm::Plain => (Shown::Line(told), PLAIN_PAUSE),
        };
        self.due.store(now.saturating_add(pause), Ordering::SeqCst);
        if self.form == ProgressForm::Line {
            self.stands.store(true, Ordering::SeqCst);
        }
        let _ = self.rt.eprint(shown);
    }
}

impl<'a, H: Clock + Eprint + Sync> Gate for Progress<'a, H> {
    fn arrive(&self, phase: Phase, _number: u32) {
        if !self.is_watched() {
            return;
        }
        match phase {
            Phase::Plans => {
                self.counts.begun.fetch_add(1, Ordering::SeqCst);
            }
            Phase::Requests => {
                if self.tests.fetch_add(1, Ordering::SeqCst) == 0 {
                    self.begin_plain();
                }
            }
        }
        self.show(phase);
    }

    fn expect(&self, stage: Stage, count: u32) {
        if !self.is_watched() {
            return;
        }
        self.counts.begin_stage();
        if let Some(mut course) = self.course.try_lock() {
            *course = Course {
                stage,
                expected: count,
                began: self.now(),
            };
        }
        self.begin_plain();
    }

    fn is_watched(&self) -> bool {
        self.form != ProgressForm::Off
    }

    fn ended(&self, ended: Ended) {
        self.counts.add(ended);
        self.show(Phase::Plans);
    }
}
