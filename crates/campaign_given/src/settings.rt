//! The settings of a campaign.
ghost use Rattle.std.specs.Prelude.{◌≡◌, ◌≤◌, ◌<◌, IfSome, false, length, string_bytes};
ghost use Rattle.std.proofs.Props.{props};
ghost use Rattle.campaign_given.specs.Given.{defaults, read_from, IsGiven};

use plan_gen::PlanSettings;
use scenario_values::Scenario;
use std::alloc::Global;
use std::marker::Model;
use target_trait::Case;

/// The default seed.
pub const SEED_IF_MISSING: u64 = 0;

/// The default number of workers.
pub const WORKERS_IF_MISSING: u32 = 1;

/// How many hits of a run are answered by default.
pub const MAX_HITS_IF_MISSING: u32 = 1000;

/// Whether there is a plan for each two sites by default.
pub const PAIRS_IF_MISSING: bool = false;

/// The default number of storms.
pub const STORMS_IF_MISSING: u32 = 0;

/// How many of a thousand sites a storm takes by default.
pub const RATE_IF_MISSING: u32 = 100;

/// Whether a power cut asks by default which pending writes it keeps.
pub const CRASH_STATES_IF_MISSING: bool = false;

/// Which plans a campaign has, and how they are run. Each value keeps the ranges that stand at its fields.
#[derive(Drop)]
pub struct CampaignSettings {
    /// The seed of every draw, 0 to 9223372036854775807, which is the greatest integer of TOML.
    pub seed: u64,
    /// How many workers there are, 1 to 64. For a component that somebody else runs this and `max_hits` mean nothing: they are 1 and 1000.
    pub workers: u32,
    /// How many hits of a run are answered, 1 to 100000. A run that hits more often is unresolved.
    pub max_hits: u32,
    /// Whether there is a plan for each two sites.
    pub pairs: bool,
    /// How many storms are drawn, 0 to 10000.
    pub storms: u32,
    /// How many of a thousand sites a storm takes, 0 to 1000.
    pub rate: u32,
    /// The depth, 1 to 64: each behaviour in which at most this many faults act is tried. `None` if plans come from the run without faults. With a
    /// depth `pairs` is false.
    pub depth: Option<u32>,
    /// Whether each run ends with a power cut that asks which pending writes it keeps. It only says so to whoever makes the target: `WithCut` of it,
    /// or the target alone. It changes nothing by itself: a target that isn't `WithCut` has nothing pending.
    pub crash_states: bool,
    /// The listed scenarios, up to 1000, which are tried too.
    pub scenarios: Vec<Scenario>,
    /// The text from which the settings were read, which a page shows. It is empty if a program made them.
    pub source: String,
    ghost seed_high: { seed ≤ 9223372036854775807 },
    ghost workers_low: { 1 ≤ workers },
    ghost workers_high: { workers ≤ 64 },
    ghost hits_low: { 1 ≤ max_hits },
    ghost hits_high: { max_hits ≤ 100000 },
    ghost storms_high: { storms ≤ 10000 },
    ghost rate_high: { rate ≤ 1000 },
    ghost depth_low: { IfSome depth (λ faults. 1 ≤ faults) } by { Prim.hlevel props },
    ghost depth_high: { IfSome depth (λ faults. faults ≤ 64) } by { Prim.hlevel props },
    ghost depth_without_pairs: { IfSome depth (λ _. pairs ≡ false) } by { Prim.hlevel props },
    ghost few_scenarios: { length scenarios.items ≤ 1000 },
}

impl Model for CampaignSettings {
    ghost use Rattle.std.specs.String.{string_bytes};
    ghost use Rattle.campaign_given.specs.Given.{Given};

    ghost Value = { Given };

    ghost view = { λ s. record {
      workers = s.workers;
      max_hits = s.max_hits;
      depth = s.depth;
      crash_states = s.crash_states;
      plans = record { pairs = s.pairs; storms = s.storms; rate = s.rate; listed = s.scenarios.items; seed = s.seed };
      source = string_bytes s.source;
    } };
}

impl CampaignSettings {
    /// The defaults: seed 0, one worker, at most 1000 hits, no pairs, no storms, 100 of a thousand sites for a storm, no depth, no crash states, no
    /// listed scenarios, and no text. A program that brings its own target starts from these, and sets what differs.
    pub fn new(alloc: Global) -> Self
        ensures { result ≡ defaults }
    {
        CampaignSettings {
            seed: SEED_IF_MISSING,
            workers: WORKERS_IF_MISSING,
            max_hits: MAX_HITS_IF_MISSING,
            pairs: PAIRS_IF_MISSING,
            storms: STORMS_IF_MISSING,
            rate: RATE_IF_MISSING,
            depth: None,
            crash_states: CRASH_STATES_IF_MISSING,
            scenarios: Vec::new(alloc),
            source: String::new(alloc),
        }
    }

    /// The same settings, as read from this text.
    pub fn read_from(mut self, source: String) -> Self
        ensures { result ≡ read_from (string_bytes source) self }
    {
        self.source = source;
        self
    }

    /// How many workers there are.
    pub fn workers(&self) -> usize
        ensures many { result ≡ self.now.workers }
        ensures some { 0 < result }
        ensures few { result ≤ 64 }
    {
        self.workers as usize
    }

    /// The settings of the list of plans.
    pub fn plan_settings(&self) -> PlanSettings<'_>
        ensures asked { result ≡ self.now.plans }
        ensures ranges { IsGiven self.now }
    {
        PlanSettings {
            pairs: self.pairs,
            storms: self.storms,
            rate: self.rate,
            listed: self.scenarios.as_slice(),
            seed: self.seed,
        }
    }

    /// The case of a scenario under a stream number.
    pub fn case<'a>(&self, scenario: &'a Scenario, stream: u64) -> Case<'a>
        ensures { result ≡ record {
          scenario = scenario.entry;
          seed = self.now.plans.seed;
          stream = stream;
          max_hits = self.now.max_hits;
        } }
    {
        Case {
            scenario,
            seed: self.seed,
            stream,
            max_hits: self.max_hits,
        }
    }
}
