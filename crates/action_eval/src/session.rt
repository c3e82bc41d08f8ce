//! A session: one run, hit by hit.
ghost use Rattle.std.specs.Prelude.{◌≡◌, ◌+◌, ◌^◌, ◌<◌, ◌≤◌, [], All, replicate, length, IfOk, OnOk, OnErr, None, Some, false, ◌++◌, ◌∷◌};
ghost use Rattle.action_eval.specs.Answers.{AllGo, hits_of, rounds, did, task_at, replies, GoesOn, reply_to, reply_of_answer, hit, stopped, is_cut_short, notes_of_task, asked, history_of, notes_of, total_millis, words_of, start, given_of, texts, name_of};
ghost use Rattle.action_eval.specs.MayAct.{MayAct};
ghost use Rattle.std.specs.List.{slice_range};
ghost use Rattle.action_eval.specs.inside.Session.{found_of, seen_in, left_counts, terms_of, IsRest, IsSpan};
ghost use Rattle.action_eval.specs.inside.Layout.{faults_of, IsLayout};

use crate::answer::{Answer, Note, Stop, effect_of, push_note};
use crate::counts::{fill_counts, spend};
use crate::draws::Draws;
use crate::fault_table::FaultTable;
use crate::found::{Found, Head, Layout, Span, chain_in, find_all, first_head, without_spent};
use crate::quiet::{pass_hits, pass_points};
use crate::terms::{task_at, try_terms};
use scenario_values::{Scenario, Task, Term};
use std::alloc::{AllocError, Global};
use std::marker::Model;

/// How many hits a session has room for at first. Most sessions are short; a longer one grows.
fn first_room(max_hits: u32) -> usize {
    (max_hits as usize + 1).min(256)
}

/// How many hits `hit` answers: up to the limit, and no more once something has stopped the run.
fn answerable_after(stopped: Option<Stop>, answerable: u32) -> u32
    ensures { stopped ≡ None → result ≡ answerable }
{
    match stopped {
        None => answerable,
        Some(_) => 0,
    }
}

/// Looks up by name where the chain of each point of a catalogue stands in a scenario. An error means that memory was refused.
fn layout_of(alloc: Global, scenario: &Scenario, catalogue: &[&str]) -> Result<Layout, AllocError>
    ensures { IfOk result (λ layout. IsLayout scenario.now (texts catalogue.now) layout) }
{
    let mut left = Vec::new(alloc);
    fill_counts(&mut left, scenario)?;
    let mut spans = Vec::new(alloc);
    spans.resize(catalogue.len(), None)?;
    let mut heads = Vec::new(alloc);
    heads.resize(catalogue.len(), Head::Nothing)?;
    find_all(&mut spans, &mut heads, scenario, catalogue);
    Ok(Layout { spans, heads, left })
}

/// Keeps a hit and its note; or, if memory is refused, neither.
fn keep(
    hits: &mut Vec<u32>,
    notes: &mut Vec<Note>,
    point: u32,
    task: Option<&Task>,
) -> Result<(), AllocError>
    ensures ok_hits { OnOk result (hits.new.items ≡ hits.old.items ++ point ∷ []) }
    ensures ok_notes { OnOk result (notes.new.items ≡ notes.old.items ++ notes_of_task point (did task.entry)) }
    ensures err_hits { OnErr result (hits.new.items ≡ hits.old.items) }
    ensures err_notes { OnErr result (notes.new.items ≡ notes.old.items) }
{
    hits.push(point)?;
    let Some(task) = task else {
        return Ok(());
    };
    let noted = push_note(notes, point, task);
    if noted.is_err() {
        hits.pop();
    }
    noted
}

/// The memory into which a session writes its hits and its notes.
#[derive(Drop)]
struct Records {
    hits: Vec<u32>,
    notes: Vec<Note>,
}

/// The buffers that a session leaves for another one: memory, in which the points still stand that its run asked.
///
/// Contracts see these points.
#[derive(Drop)]
pub struct SessionBuffers {
    records: Records,
    layout: Layout,
}

impl Model for SessionBuffers {
    ghost use Rattle.std.specs.Prelude.{ℕ, List};

    ghost Value = { List ℕ };

    ghost view = { λ b. b.records.hits.items };
}

impl SessionBuffers {
    /// Buffers for nothing yet.
    pub fn new(alloc: Global) -> Self
        ensures { result ≡ [] }
    {
        SessionBuffers {
            records: Records {
                hits: Vec::new(alloc),
                notes: Vec::new(alloc),
            },
            layout: Layout {
                spans: Vec::new(alloc),
                heads: Vec::new(alloc),
                left: Vec::new(alloc),
            },
        }
    }

    /// The points that the session's run asked, in order. A hit past the limit doesn't count as asked.
    pub fn trace(&self) -> &[u32]
        ensures { result.now ≡ self.now }
    {
        self.records.hits.as_slice()
    }
}

/// The faults by which a session's hits are answered.
#[derive(Clone, Copy)]
pub enum Faults<'a> {
    Written(&'a Scenario),
    Rigged(&'a FaultTable<'a>),
}

impl<'a> Faults<'a> {
    /// The chain that stands there.
    fn chain(self, span: Span) -> &'a [Term]
        requires { IsSpan (faults_of self) span }
        ensures { result.now ≡ slice_range (terms_of (faults_of self.entry)) span.start span.end }
    {
        match self {
            Faults::Written(scenario) => chain_in(scenario, span),
            Faults::Rigged(table) => table.terms(span.start, span.end),
        }
    }
}

/// One run under a scenario: what the run is given, and its hits so far. It borrows the scenario and the names of the points.
///
/// Contracts see what it is given and the list of points that were hit; everything else follows from these.
#[derive(Drop)]
pub struct Session<'a> {
    faults: Faults<'a>,
    catalogue: &'a [&'a str],
    max_hits: u32,
    hits: Vec<u32>,
    spans: Vec<Option<Span>>,
    heads: Vec<Head>,
    left: Vec<u32>,
    draws: Draws,
    notes: Vec<Note>,
    millis: u64,
    stopped: Option<Stop>,
    /// How many hits `hit` answers: `max_hits`, and no more once the run was stopped.
    answerable: u32,
    /// Whether a point was hit after the run was stopped.
    asked_after_stop: bool,
}

impl<'a> Model for Session<'a> {
    ghost use Rattle.std.specs.Prelude.{◌≡◌, map};
    ghost use Rattle.action_eval.specs.Answers.{Run};
    ghost use Rattle.action_eval.specs.inside.Session.{AreSpans, IsOpen, Keeps, seen_in, head_of};
    ghost use Rattle.action_eval.specs.inside.Layout.{faults_of, run_of};

    ghost Value = { Run };

    ghost view = { λ s. run_of s.faults (map (λ n. n.now) s.catalogue.now) s.draws s.max_hits s.hits.items };

    ghost invariant = { λ s.
        Keeps (run_of s.faults (map (λ n. n.now) s.catalogue.now) s.draws s.max_hits s.hits.items)
        (map (seen_in (faults_of s.faults)) s.spans.items) s.left.items s.draws.taken s.notes.items s.millis s.stopped
        × (s.heads.items ≡ map head_of (map (seen_in (faults_of s.faults)) s.spans.items))
        × AreSpans (faults_of s.faults) s.spans.items
        × IsOpen s.stopped s.max_hits s.answerable s.asked_after_stop };
}

impl<'a> Session<'a> {
    /// A session with no hit yet, over the stream of words of a seed and a stream number. It answers `max_hits` hits.
    ///
    /// It looks each point's chain up once. The generator of the words is made for the first word that is taken.
    pub fn new(
        alloc: Global,
        scenario: &'a Scenario,
        catalogue: &'a [&'a str],
        seed: u64,
        stream: u64,
        max_hits: u32,
    ) -> Result<Self, AllocError>
        ensures { IfOk result (λ s. s ≡ start (given_of scenario.now (texts catalogue.now) seed stream max_hits)) }
    {
        let layout = layout_of(alloc, scenario, catalogue)?;
        Session::begin(
            Faults::Written(scenario),
            catalogue,
            layout,
            SessionBuffers::new(alloc).records,
            seed,
            stream,
            max_hits,
        )
    }

    /// A session with no hit yet over the points of a fault table. The table's faults answer the hits, so it is the session of the table's scenario,
    /// but no name is looked up.
    pub fn over(
        alloc: Global,
        table: &'a FaultTable<'a>,
        seed: u64,
        stream: u64,
        max_hits: u32,
    ) -> Result<Self, AllocError>
        ensures { IfOk result (λ s. s ≡ start (given_of table.now.scenario table.now.names seed stream max_hits)) }
    {
        Session::over_in(SessionBuffers::new(alloc), table, seed, stream, max_hits)
    }

    /// The same, in the buffers that an earlier session of any run left. If memory is refused, the buffers are given back to the system.
    // A session has the place of a generator in it: made within its caller, it isn't moved.
    #[inline(always)]
    pub fn over_in(
        buffers: SessionBuffers,
        table: &'a FaultTable<'a>,
        seed: u64,
        stream: u64,
        max_hits: u32,
    ) -> Result<Self, AllocError>
        ensures { IfOk result (λ s. s ≡ start (given_of table.now.scenario table.now.names seed stream max_hits)) }
    {
        let layout = table.layout(buffers.layout)?;
        Session::begin(
            Faults::Rigged(table),
            table.catalogue(),
            layout,
            buffers.records,
            seed,
            stream,
            max_hits,
        )
    }

    /// A session with no hit yet, from where the points' chains stand. It writes into the memory of these records.
    #[inline(always)]
    fn begin(
        faults: Faults<'a>,
        catalogue: &'a [&'a str],
        layout: Layout,
        records: Records,
        seed: u64,
        stream: u64,
        max_hits: u32,
    ) -> Result<Self, AllocError>
        requires { IsLayout (faults_of faults) (texts catalogue.now) layout }
        ensures { IfOk result (λ s. s ≡ start (given_of (faults_of faults.entry) (texts catalogue.now) seed stream max_hits)) }
    {
        let mut hits = records.hits;
        let alloc = *hits.allocator();
        hits.clear();
        hits.reserve(first_room(max_hits))?;
        let mut notes = records.notes;
        notes.clear();
        Ok(Session {
            faults,
            catalogue,
            max_hits,
            hits,
            spans: layout.spans,
            heads: layout.heads,
            left: layout.left,
            draws: Draws::new(alloc, seed, stream),
            notes,
            millis: 0,
            stopped: None,
            answerable: max_hits,
            asked_after_stop: false,
        })
    }

    /// Hits the point with this number in the catalogue. The answer follows from all hits before, by the terms of the point's chain in order. The hit
    /// after `max_hits` answered ones is answered `Halt`, and doesn't count as asked.
    ///
    /// An error means that memory was refused. Then the session is as it was, and so is its stream of words.
    // Most hits are quiet. They are answered within the caller's loop, and only the others by a call.
    #[inline(always)]
    pub fn hit(&mut self, point: u32) -> Result<Answer<'a>, AllocError>
        requires known { point < length self.old.given.catalogue }
        requires running { stopped self.old ≡ None }
        ensures answer { IfOk result (λ a. reply_of_answer a ≡ reply_to self.old point) }
        ensures ok { OnOk result (self.new ≡ hit self.old point) }
        ensures told { IfOk result (λ a. replies self.new ≡ replies self.old ++ reply_of_answer a ∷ []) }
        ensures goes_on { IfOk result (λ a. GoesOn (reply_of_answer a) self.new) }
        ensures err { OnErr result (self.new ≡ self.old) }
    {
        if self.hits.len() >= self.answerable as usize {
            return self.hit_closed(point);
        }
        // Room is made at one place, as this code stands in the loops of all callers.
        self.hits.reserve(1)?;
        match self.heads[point as usize] {
            Head::Nothing => {
                self.hits.push_reserved(point);
                Ok(Answer::Go)
            }
            Head::Off(at) if self.left[at] > 0 => {
                self.hits.push_reserved(point);
                self.left[at] -= 1;
                Ok(Answer::Go)
            }
            _ => self.hit_terms(point),
        }
    }

    /// Hits a point past the limit; or after the run was stopped, which no proved caller does. Such a hit is answered `Halt` too, and leaves the run
    /// unresolved.
    #[cold]
    fn hit_closed(&mut self, point: u32) -> Result<Answer<'a>, AllocError>
        requires closed { self.old.given.limit ≤ length self.old.hits }
        requires running { stopped self.old ≡ None }
        ensures answer { IfOk result (λ a. reply_of_answer a ≡ reply_to self.old point) }
        ensures ok { OnOk result (self.new ≡ hit self.old point) }
        ensures told { IfOk result (λ a. replies self.new ≡ replies self.old ++ reply_of_answer a ∷ []) }
        ensures goes_on { IfOk result (λ a. GoesOn (reply_of_answer a) self.new) }
        ensures err { OnErr result (self.new ≡ self.old) }
    {
        if self.stopped.is_none() {
            return self.hit_past(point);
        }
        self.asked_after_stop = true;
        self.stopped = Some(Stop::Limit);
        Ok(Answer::Halt)
    }

    /// Hits a point past the limit: the run is over.
    fn hit_past(&mut self, point: u32) -> Result<Answer<'a>, AllocError>
        requires past { length self.old.hits ≡ self.old.given.limit }
        ensures answer { IfOk result (λ a. reply_of_answer a ≡ reply_to self.old point) }
        ensures ok { OnOk result (self.new ≡ hit self.old point) }
        ensures told { IfOk result (λ a. replies self.new ≡ replies self.old ++ reply_of_answer a ∷ []) }
        ensures halts { IfOk result (λ a. a ≡ Answer.Halt) }
        ensures err { OnErr result (self.new ≡ self.old) }
    {
        self.hits.push(point)?;
        self.stopped = Some(Stop::Limit);
        self.answerable = 0;
        Ok(Answer::Halt)
    }

    /// Does what `hit` does, also after a panic, as the power cut at the end of a run needs it. The run must not be cut short.
    ///
    /// An error means that memory was refused. Then the session is as it was, and so is its stream of words.
    pub fn ask_on(&mut self, point: u32) -> Result<Answer<'a>, AllocError>
        requires known { point < length self.old.given.catalogue }
        requires running { is_cut_short self.old ≡ false }
        ensures answer { IfOk result (λ a. reply_of_answer a ≡ reply_to self.old point) }
        ensures ok { OnOk result (self.new ≡ hit self.old point) }
        ensures told { IfOk result (λ a. replies self.new ≡ replies self.old ++ reply_of_answer a ∷ []) }
        ensures err { OnErr result (self.new ≡ self.old) }
    {
        if self.hits.len() >= self.max_hits as usize {
            self.hit_past(point)
        } else {
            self.hit_terms(point)
        }
    }

    /// Hits a point if the hit may not be quiet.
    #[inline(never)]
    fn hit_terms(&mut self, point: u32) -> Result<Answer<'a>, AllocError>
        requires room { length self.old.hits < self.old.given.limit }
        requires limit { self.old.given.limit < 2 ^ 32 }
        requires known { point < length self.old.given.catalogue }
        ensures answer { IfOk result (λ a. reply_of_answer a ≡ reply_to self.old point) }
        ensures ok { OnOk result (self.new ≡ hit self.old point) }
        ensures told { IfOk result (λ a. replies self.new ≡ replies self.old ++ reply_of_answer a ∷ []) }
        ensures goes_on { stopped self.old ≡ None → IfOk result (λ a. GoesOn (reply_of_answer a) self.new) }
        ensures err { OnErr result (self.new ≡ self.old) }
    {
        let Some(span) = self.spans[point as usize] else {
            self.hits.push(point)?;
            return Ok(Answer::Go);
        };
        self.hit_chain(point, span)
    }

    /// Hits a point whose chain, as far as it is left, stands there.
    fn hit_chain(&mut self, point: u32, span: Span) -> Result<Answer<'a>, AllocError>
        requires room { length self.old.hits < self.old.given.limit }
        requires limit { self.old.given.limit < 2 ^ 32 }
        requires known { point < length self.old.given.catalogue }
        requires chain { IsRest (left_counts (history_of self.old) self.old.given.scenario)
            (found_of self.old.given.scenario (name_of self.old.given point)) (seen_in self.old.given.scenario (Some span)) }
        requires span { IsSpan self.old.given.scenario span }
        ensures answer { IfOk result (λ a. reply_of_answer a ≡ reply_to self.old point) }
        ensures ok { OnOk result (self.new ≡ hit self.old point) }
        ensures told { IfOk result (λ a. replies self.new ≡ replies self.old ++ reply_of_answer a ∷ []) }
        ensures goes_on { stopped self.old ≡ None → IfOk result (λ a. GoesOn (reply_of_answer a) self.new) }
        ensures err { OnErr result (self.new ≡ self.old) }
    {
        let taken = self.draws.taken();
        let chain = self.faults.chain(span);
        let place = try_terms(chain, &self.left[span.start..span.end], &mut self.draws);
        let task = task_at(chain, place);
        if let Err(refused) = keep(&mut self.hits, &mut self.notes, point, task) {
            self.draws.go_back(taken);
            return Err(refused);
        }
        spend(&mut self.left, span.start, place);
        let start = span.start;
        let rest = without_spent(Found { chain, start }, &self.left);
        self.spans[point as usize] = Some(Span {
            start: rest.start,
            ..span
        });
        self.heads[point as usize] = first_head(rest);
        let effect = effect_of(task);
        self.millis += u64::from(effect.millis);
        self.stopped = effect.stop.or(self.stopped);
        self.answerable = answerable_after(self.stopped, self.answerable);
        Ok(effect.answer)
    }

    /// Makes up to `most` quiet hits of the point with this number in the catalogue, and returns how many it made. Each of them is answered `Go`. If
    /// they are fewer than `most`, the limit is reached, or the next hit may not be quiet: make that one by `hit`.
    ///
    /// An error means that memory was refused. Then the session is as it was.
    pub fn pass(&mut self, point: u32, most: usize) -> Result<usize, AllocError>
        requires known { point < length self.old.given.catalogue }
        requires running { stopped self.old ≡ None }
        ensures count { IfOk result (λ n. n ≤ most) }
        ensures fewer { IfOk result (λ n. n < most → length self.new.hits < self.new.given.limit → MayAct self.new point) }
        ensures ok { IfOk result (λ n. self.new ≡ hits_of self.old (replicate n point)) }
        ensures told { IfOk result (λ n. AllGo self.old (replicate n point)) }
        ensures goes_on { OnOk result (stopped self.new ≡ None) }
        ensures err { OnErr result (self.new ≡ self.old) }
    {
        let room = (self.answerable as usize).saturating_sub(self.hits.len());
        let most = most.min(room);
        let count = pass_hits(&self.heads, &mut self.left, &mut self.hits, point, most)?;
        Ok(count)
    }

    /// Makes up to `most` quiet rounds of hits of these points of the catalogue, in turn, and returns how many rounds it made. Each of these hits is
    /// answered `Go`. After 0 rounds the next hit may be quiet or not: make it by `hit`.
    ///
    /// An error means that memory was refused. Then the session is as it was.
    // A caller mostly hits the same points again and again. As this is compiled within the caller, the points are known there.
    #[inline(always)]
    pub fn pass_rounds(&mut self, points: &[u32], most: usize) -> Result<usize, AllocError>
        requires known { All (λ p. p < length self.old.given.catalogue) points.now }
        requires running { stopped self.old ≡ None }
        ensures count { IfOk result (λ n. n ≤ most) }
        ensures ok { IfOk result (λ n. self.new ≡ hits_of self.old (rounds n points.now)) }
        ensures told { IfOk result (λ n. AllGo self.old (rounds n points.now)) }
        ensures goes_on { OnOk result (stopped self.new ≡ None) }
        ensures err { OnErr result (self.new ≡ self.old) }
    {
        if points.is_empty() {
            return Ok(0);
        }
        let room = (self.answerable as usize).saturating_sub(self.hits.len()) / points.len();
        let most = most.min(room) as u32;
        let count = pass_points(&self.heads, &mut self.left, &mut self.hits, points, most)?;
        Ok(count as usize)
    }

    /// The points that were asked, in order. A hit past the limit doesn't count as asked.
    pub fn trace(&self) -> &[u32]
        ensures value { result.now ≡ asked self.now }
        ensures within { length self.now.hits ≤ self.now.given.limit + 1 }
    {
        let limit = self.max_hits as usize;
        if self.hits.len() > limit {
            &self.hits.as_slice()[..limit]
        } else {
            self.hits.as_slice()
        }
    }

    /// The notes so far.
    pub fn notes(&self) -> &[Note]
        ensures { result.now ≡ notes_of (history_of self.now) }
    {
        self.notes.as_slice()
    }

    /// The notes so far, taken out of the session.
    pub fn into_notes(self) -> Vec<Note>
        ensures { result.items ≡ notes_of (history_of self.entry) }
    {
        self.notes
    }

    /// The session's buffers, for another session, with the points that this one's run asked.
    pub fn into_buffers(self) -> SessionBuffers
        ensures { result ≡ asked self.entry }
    {
        let mut hits = self.hits;
        hits.truncate(self.max_hits as usize);
        SessionBuffers {
            records: Records {
                hits,
                notes: self.notes,
            },
            layout: Layout {
                spans: self.spans,
                heads: self.heads,
                left: self.left,
            },
        }
    }

    /// The simulated milliseconds so far: those of each `sleep` and `delay` that acted.
    pub fn millis(&self) -> u64
        ensures { result ≡ total_millis (history_of self.now) }
    {
        self.millis
    }

    /// How many words of the run's stream were taken: one for each term tried whose share is less than full.
    pub fn words(&self) -> u64
        ensures { result ≡ words_of (history_of self.now) }
    {
        self.draws.taken()
    }

    /// What stopped the session, if anything did. If its power cut was asked after a panic, this is the last stop.
    pub fn stopped(&self) -> Option<Stop>
        ensures { result ≡ stopped self.now }
    {
        self.stopped
    }

    /// Whether a pause or the limit ended the run. Then nothing more is asked, and nothing is known of the run. After a panic, its power cut is still
    /// to come.
    pub fn is_cut_short(&self) -> bool
        ensures { result ≡ is_cut_short self.now }
    {
        matches!(self.stopped, Some(Stop::Paused | Stop::Limit))
    }

    /// Whether a point was hit after the run was stopped. No proved caller does that. It is for targets that aren't proved; their run is then
    /// unresolved.
    pub fn was_asked_after_stop(&self) -> bool
        ensures { result ≡ false }
    {
        self.asked_after_stop
    }
}
