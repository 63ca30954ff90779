//! The history of a bench: its live state, and the records that lead back and forward from it.
ghost use Rattle.std.specs.Prelude.{◌≡◌, ◌↔◌, [], OnOk, OnErr, IfOk, IfSome, IsSome, Some, ◌≤◌, ◌+◌, ◌-◌, ◌<◌, ◌^◌, length, map, min, option_map, take, drop, slice_get, ◌++◌};
ghost use Rattle.std.specs.List.{All};
ghost use Rattle.ssa_model.specs.definitions.Carry.{carry};
ghost use Rattle.ssa_model.specs.definitions.History.{present, past_len, future_len, appended, forgotten, held, moved_to};
ghost use Rattle.ssa_model.specs.definitions.HistoryRecords.{kept_from, kept_size, kept_to};
ghost use Rattle.ssa_model.specs.definitions.Record.{record_of};
ghost use Rattle.ssa_model.specs.definitions.RecordedBench.{HasReadHistory};
ghost use Rattle.ssa_json.specs.Readings.{readings};
ghost use Rattle.ssa_merge.specs.States.{state_view};
ghost use Rattle.ssa_reverse.specs.Journals.{future_of, past_of, timeline_of};
ghost use Rattle.ssa_turn.specs.Dated.{MakesDated};
ghost use Rattle.ssa_turn.specs.Histories.{in_a_row, label_view, lent_labels, preceded};
ghost use Rattle.ssa_turn.specs.TablesBack.{AllTablesBack, HasTableBack};
ghost use Rattle.ssa_turn_state.specs.States.{HasStateRoom, IsTaken, state_steps};

use crate::label::Label;
use crate::reads_state::ReadsState;
use ssa_merge::state::State;
use ssa_reverse::depth::Depth;
use ssa_reverse::journal::Journal;
use ssa_turn_state::live_state::{LiveState, StateDelta};
use ssa_turn_state::own_paths::own_paths_are_read;
use std::alloc::{AllocError, Global};
use std::marker::Model;

/// The labels of a history: those of the states up to the place, oldest first, and those behind it,
/// the next one first.
#[derive(Drop)]
pub struct Log<'a> {
    pub past: Vec<&'a Label>,
    pub future: Vec<&'a Label>,
}

/// All states in a row, and a place among them. The state at the place is kept whole, the others as
/// the records that lead there, so that the history takes the memory of what commands changed.
#[derive(Drop)]
pub struct Timeline {
    live: LiveState,
    journal: Journal<LiveState, Label>,
}

impl Model for Timeline {
    ghost use Rattle.ssa_model.specs.definitions.History as model;
    ghost use Rattle.ssa_model.specs.codes.BenchCodes.{coded_timeline};

    ghost Value = { model.Timeline };

    ghost coded = { coded_timeline };

    ghost use Rattle.ssa_turn.specs.Histories.{timeline_view, IsWhole};

    ghost view = { timeline_view };

    ghost invariant = { IsWhole };
}

// The labels of the records from one place to another.
fn labels_between(
    alloc: Global,
    journal: &Journal<LiveState, Label>,
    from: usize,
    to: usize,
) -> Result<Vec<&Label>, AllocError>
    requires order { from ≤ to }
    requires within { to ≤ length (past_of journal.now ++ future_of journal.now) }
    ensures { IfOk result (λ ls. lent_labels ls.items ≡ map (λ r. label_view r.1) (take (to - from) (drop from (past_of journal.now ++ future_of journal.now)))) }
{
    let mut found = Vec::with_capacity(alloc, to - from)?;
    for place in from..to {
        match journal.entry(place) {
            Some(entry) => found.push(entry.1)?,
            None => unreachable!(),
        }
    }
    Ok(found)
}

impl Timeline {
    /// A timeline of one state.
    pub fn new(alloc: Global, first: State) -> Timeline
        ensures { result ≡ record { first = state_view first; later = []; place = 0 } }
    {
        first.managers.own_entries_are_read();
        own_paths_are_read(&first.body);
        Timeline {
            live: LiveState { state: first },
            journal: Journal::new(alloc),
        }
    }

    /// The state at the place, and the records that lead from it to the others: a timeline keeps nothing
    /// else. Takes no memory.
    pub fn into_parts(self) -> (State, Journal<LiveState, Label>)
        ensures { in_a_row (timeline_of result.1 (state_view result.0)) ≡ self }
    {
        let Timeline { live, journal } = self;
        let LiveState { state } = live;
        (state, journal)
    }

    /// The place is that of one of the states.
    pub fn place_is_within(&self)
        ensures { self.now.place ≤ length self.now.later }
    {
        let _ = &self.live;
    }

    /// The sets of each state's managers are read from what they are written as. Takes no memory.
    pub fn own_entries_are_read(&self)
        ensures { AllTablesBack self.now }
    {
        let _ = &self.live;
    }

    /// The moments of the commands that made the states are moments. Takes no memory.
    pub fn own_moments_are_read(&self)
        ensures { All MakesDated self.now.later }
    {
        let _ = &self.live;
    }

    /// The paths of each state are read from their elements' texts. Takes no memory.
    pub fn own_paths_are_read(&self)
        ensures { HasReadHistory readings self.now }
    {
        let _ = &self.live;
    }

    /// The state at the place.
    pub fn present(&self) -> &State
        ensures { state_view result.now ≡ present self.now }
    {
        &self.live.state
    }

    /// How many states stand before the place.
    pub fn past_len(&self) -> usize
        ensures count { result ≡ past_len self.now }
        ensures small { result < 2 ^ 63 }
    {
        self.journal.past_len()
    }

    /// How many states stand after the place.
    pub fn future_len(&self) -> usize
        ensures count { result ≡ future_len self.now }
        ensures small { result < 2 ^ 63 }
    {
        self.journal.future_len()
    }

    /// The labels of the commands that led to the place, oldest first, and of those behind it, the
    /// next one first.
    pub fn log(&self, alloc: Global) -> Result<Log<'_>, AllocError>
        ensures past { IfOk result (λ l. lent_labels l.past.items ≡ map (λ s. s.label) (take (past_len self.now) self.now.later)) }
        ensures future { IfOk result (λ l. lent_labels l.future.items ≡ map (λ s. s.label) (drop (past_len self.now) self.now.later)) }
    {
        let place = self.journal.past_len();
        let all = place + self.journal.future_len();
        let past = labels_between(alloc, &self.journal, 0, place)?;
        let future = labels_between(alloc, &self.journal, place, all)?;
        Ok(Log { past, future })
    }

    /// How much the n-th record holds, or `usize::MAX` where it is more: of those of the past first,
    /// oldest at 0, each leading back from the state after its command to the one before it, then of
    /// those of the future, each leading forward. Takes no memory.
    pub fn record_size(&self, n: usize) -> Option<usize>
        ensures { result ≡ option_map (λ s. min s (2 ^ 64 - 1)) (kept_size self.now n) }
    {
        match self.journal.entry(n) {
            Some(entry) => Some(entry.0.size()),
            None => None,
        }
    }

    /// The n-th record with the label of its command: those of the past first, oldest at 0, each
    /// leading back from the state after its command to the one before it, then those of the future,
    /// each leading forward. Takes no memory.
    pub fn entry(&self, n: usize) -> Option<(&StateDelta, &Label)>
        ensures within { IsSome result ↔ (n < length self.now.later) }
        ensures steps { IfSome result (λ e. state_steps e.0.now ≡ record_of (kept_from self.now n) (kept_to self.now n)) }
        ensures taken { IfSome result (λ e. IsTaken (state_steps e.0.now) (kept_from self.now n) (kept_to self.now n)) }
        ensures room { IfSome result (λ e. HasStateRoom e.0.now (kept_from self.now n)) }
        ensures command { IfSome result (λ e. slice_get (map (λ s. s.label) self.now.later) n ≡ Some (label_view e.1.now)) }
    {
        self.journal.entry(n)
    }

    /// Cuts off what came after the place, and goes to the state that a command's record leads to there. The
    /// record comes with the command's label in the box in which the history keeps both.
    ///
    /// All memory that later moves want is taken here: where it is refused, nothing has moved.
    pub fn append(&mut self, entry: Box<(StateDelta, Label)>) -> Result<(), AllocError>
        requires fits { IsTaken (state_steps entry.value.0) (present self.old) (carry (state_steps entry.value.0) (present self.old)) }
        requires room { HasStateRoom entry.value.0 (present self.old) }
        requires back { HasTableBack (carry (state_steps entry.value.0) (present self.old)) }
        ensures ok { OnOk result (self.new ≡ appended self.old (label_view entry.value.1) (carry (state_steps entry.value.0) (present self.old))) }
        ensures err { OnErr result (self.new ≡ self.old) }
    {
        entry.1.own_moment_is_read();
        let moved = self.journal.record(&mut self.live, entry);
        own_paths_are_read(&self.live.state.body);
        moved
    }

    /// Puts a state before all others, at the place of which the timeline stands, and goes there: the
    /// command led from it to the state that was first, and the record leads to it. They come as for
    /// [`append`](Timeline::append).
    ///
    /// All memory that later moves want is taken here: where it is refused, nothing has moved.
    pub fn precede(&mut self, entry: Box<(StateDelta, Label)>) -> Result<(), AllocError>
        requires first { past_len self.old ≡ 0 }
        requires fits { IsTaken (state_steps entry.value.0) (present self.old) (carry (state_steps entry.value.0) (present self.old)) }
        requires room { HasStateRoom entry.value.0 (present self.old) }
        requires back { HasTableBack (carry (state_steps entry.value.0) (present self.old)) }
        ensures ok { OnOk result (self.new ≡ preceded self.old (label_view entry.value.1) (carry (state_steps entry.value.0) (present self.old))) }
        ensures err { OnErr result (self.new ≡ self.old) }
    {
        entry.1.own_moment_is_read();
        let moved = self.journal.precede(&mut self.live, entry);
        own_paths_are_read(&self.live.state.body);
        moved
    }

    /// Drops the oldest state, and the record that led back to it. The place stays with its state. Takes no memory.
    pub fn forget(&mut self)
        requires { 0 < past_len self.old }
        ensures { self.new ≡ forgotten self.old }
    {
        self.journal.forget();
    }

    /// Drops the oldest state where more than `depth` stand before the place. Takes no memory.
    pub fn hold(&mut self, depth: &Depth)
        ensures { self.new ≡ held depth.now self.old }
    {
        if self.past_len() > depth.number() {
            self.forget();
        }
    }

    /// Reads the live state where it stands. The history is as before.
    pub fn read<R: ReadsState>(&mut self, reading: R) -> Result<R::Answer, AllocError>
        requires { R.can_read reading (present self.old) }
        ensures same { self.new ≡ self.old }
        ensures answer { IfOk result (λ a. R.reads reading (present self.old) a) }
    {
        reading.read(&mut self.live.state)
    }

    /// Goes one state back. Takes no memory.
    pub fn undo(&mut self)
        requires { 0 < past_len self.old }
        ensures { self.new ≡ moved_to self.old (past_len self.old - 1) }
    {
        match self.journal.undo(&mut self.live) {
            Ok(_) => {}
            Err(_) => unreachable!(),
        }
    }

    /// Goes one state forward. Takes no memory.
    pub fn redo(&mut self)
        requires { 0 < future_len self.old }
        ensures { self.new ≡ moved_to self.old (past_len self.old + 1) }
    {
        match self.journal.redo(&mut self.live) {
            Ok(_) => {}
            Err(_) => unreachable!(),
        }
    }

    // Goes back until no more than so many states stand before the place.
    fn go_back_to(&mut self, place: usize)
        requires { place ≤ past_len self.old }
        ensures { self.new ≡ moved_to self.old place }
    {
        while place < self.past_len() {
            self.undo();
        }
    }

    // Goes forward until so many states stand before the place.
    fn go_on_to(&mut self, place: usize)
        requires within { place ≤ length self.old.later }
        requires behind { past_len self.old ≤ place }
        ensures { self.new ≡ moved_to self.old place }
    {
        while self.past_len() < place {
            self.redo();
        }
    }

    /// Goes to a place: that many states stand before the one there. Takes no memory.
    pub fn go_to(&mut self, place: usize)
        requires { place ≤ length self.old.later }
        ensures { self.new ≡ moved_to self.old place }
    {
        if place <= self.past_len() {
            self.go_back_to(place);
        } else {
            self.go_on_to(place);
        }
    }
}
