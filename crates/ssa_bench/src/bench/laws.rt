//! What holds of each bench: its history is valid, and what is shown of it is taken again.
ghost use Rattle.std.specs.Prelude.{◌≡◌, [], Ok, false, true};
ghost use Rattle.ssa_model.specs.definitions.Answers.{bench_of, command_body, lone_bench};
ghost use Rattle.ssa_model.specs.definitions.Entries.{object_of_state};
ghost use Rattle.ssa_model.specs.definitions.History.{present};
ghost use Rattle.ssa_model.specs.definitions.Limits.{most_past};
ghost use Rattle.ssa_model.specs.definitions.Valid.{IsValidHistory};
ghost use Rattle.ssa_json.specs.Readings.{readings};
ghost use Rattle.ssa_bench.specs.ReadBack.{AllTakenBack};
ghost use Rattle.ssa_model.specs.definitions.BenchFile.{IsValidBench};
ghost use Rattle.ssa_model.specs.definitions.RecordedBench.{HasReadHistory};

use super::Bench;

impl Bench {
    /// The history is one as commands make it: each state's body is one of the schema's kind and its
    /// table one of the body, the managers that neighbouring states share stand in one order, each
    /// label has a manager's name, and there are no more commands than the depth.
    pub fn history_is_valid(&self)
        ensures { IsValidHistory self.now.schema.kind self.now.depth self.now.timeline }
    {
        let _ = &self.timeline;
    }

    /// The bench is valid: all that a bench file tells of it is as the definitions ask.
    ///
    /// Looks at the numbers of the managers' sets, and changes nothing. Takes no memory.
    pub fn is_valid(&self)
        ensures { IsValidBench readings self.now }
    {
        let _kind = self.schema.kind();
        let _depth = self.depth.number();
        self.identity.parts_are_named();
        self.timeline.place_is_within();
        self.timeline.own_entries_are_read();
        self.timeline.own_moments_are_read();
    }

    /// The paths of each state are read from their elements' texts. Takes no memory.
    pub fn paths_are_read(&self)
        ensures { HasReadHistory readings self.now.timeline }
    {
        self.timeline.own_paths_are_read();
    }

    /// The object that is shown without the managers' entries is taken as the present body: by a
    /// command, and by an object file, which makes a bench without managers and history, of the greatest depth.
    pub fn shown_is_taken(&self)
        ensures command { command_body self.now (object_of_state self.now.identity self.now.schema.kind false (present self.now.timeline)) ≡ Ok (present self.now.timeline).body }
        ensures file { bench_of readings self.now.schema (object_of_state self.now.identity self.now.schema.kind false (present self.now.timeline))
            ≡ Ok (lone_bench most_past self.now.schema self.now.identity (record { body = (present self.now.timeline).body; table = [] })) }
    {
        let _kind = self.schema.kind();
        self.identity.parts_are_named();
    }

    /// The object that is shown with the managers' entries is taken by an object file as the present
    /// state, without the history.
    ///
    /// Looks at the numbers of the managers' sets, and changes nothing. Takes no memory.
    pub fn shown_state_is_taken(&self)
        ensures { bench_of readings self.now.schema (object_of_state self.now.identity self.now.schema.kind true (present self.now.timeline))
            ≡ Ok (lone_bench most_past self.now.schema self.now.identity (present self.now.timeline)) }
    {
        let _kind = self.schema.kind();
        self.identity.parts_are_named();
        self.timeline.present().managers.own_entries_are_read();
    }

    /// The object that is shown of each state of the history, with the managers' entries, is taken by
    /// an object file as that state: so each is in the bench file.
    ///
    /// Looks at the numbers of the managers' sets, and changes nothing. Takes no memory.
    pub fn shown_states_are_taken(&self)
        ensures { AllTakenBack self.now }
    {
        let _kind = self.schema.kind();
        self.identity.parts_are_named();
        self.timeline.own_entries_are_read();
    }
}
