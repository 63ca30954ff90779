//! That the value of the record of two states says just what the record tells.
ghost use Rattle.ssa_told.specs.Said.{RecordTextsSay};

/// The value of the record of two valid states, whose paths and moments are read, says the record list
/// by list: nothing is left out, told twice or told in another order.
///
/// A proof that runs nothing.
pub fn record_texts_say()
    ensures { RecordTextsSay }
{}
