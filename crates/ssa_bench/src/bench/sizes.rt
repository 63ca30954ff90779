//! How much the records hold that the history keeps.
ghost use Rattle.std.specs.Prelude.{◌≡◌, ◌≤◌, ◌-◌, ◌^◌, min, option_map, IfSome};
ghost use Rattle.ssa_model.specs.definitions.HistoryRecords.{kept_facts, kept_size};

use super::Bench;
use ssa_model::records::size_bound;

impl Bench {
    /// How much the n-th record of the history holds, or `usize::MAX` where it is more. The records
    /// of the past come first, oldest at 0, each leading back from the state after its command to
    /// the one before it; then those of the future, each leading forward.
    ///
    /// Of the body there are counted each path put, with those below it, each path cut, each leaf,
    /// and each item of a list in another order. Of the table there are counted 1 for each manager
    /// gone, 1 and the size of its set for each manager that comes, each path gained or lost by
    /// another, and 1 for each new moment. This is no more than the facts in which the two states
    /// differ. Takes no memory.
    pub fn record_size(&self, n: usize) -> Option<usize>
        ensures value { result ≡ option_map (λ s. min s (2 ^ 64 - 1)) (kept_size self.now.timeline n) }
        ensures bound { IfSome result (λ s. s ≤ kept_facts self.now.timeline n) }
    {
        size_bound();
        self.timeline.record_size(n)
    }
}
