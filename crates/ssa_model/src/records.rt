//! Laws of the records of two states: each is the contract of a function that does nothing.

ghost use Rattle.ssa_model.specs.laws.RecordLeads.{SetLeads, TableLeads, CarryAnswers, BodyLeads, RecordLeads};
ghost use Rattle.ssa_model.specs.laws.RecordTurns.{BodyTurns, TableTurns, RecordTurns, FixesTarget, FixesRecord, LeadsBack, TurnsTwice, BodyLaws, TableLaws, TakesByParts};
ghost use Rattle.ssa_model.specs.laws.RecordSizes.{BodyBound, TableBound, SizeBound, FactsBothWays};
ghost use Rattle.ssa_model.specs.laws.InPlace.{TableIsInserted, StayersAreLed, ItemsAreInserted};
ghost use Rattle.ssa_model.specs.laws.RecordWalks.{CutsAreFiltered, LeavesAreFiltered, OrdersAreFiltered, PutsAreFiltered, RecordBelow, PartIsValue, TreeLeads, BodiesAreTrees, PartIsTree, CarryBelow};
ghost use Rattle.ssa_model.specs.laws.FittingRecords.{FittingBodyLeads, TakenBodyFits, FittingTableLeads, TakenTableFits, FittingLeads, TakenFits};
ghost use Rattle.ssa_model.specs.laws.RecordPlaces.{ReplacedAnswers, PartsFit, ReplacedFits, ReplacedIsRooted, ReplacedSize, ChangesThere, PlaceStays, KindsFit, PlaceIsValid, PlaceIsRead};
ghost use Rattle.ssa_model.specs.laws.RecordReading.{RecordTextsHaveShape, RecordTextsAreRead};
ghost use Rattle.ssa_model.specs.laws.RecordedBenches.{RecordedFilesAreTaken, TakenIsRecordedText, MisfitIsRefused, MovesHaveShape};
ghost use Rattle.ssa_model.specs.laws.RecordedMoves.{LineIsMove, ShapelessIsNoMove, MisfitIsTold, LineOfParts};
ghost use Rattle.ssa_model.specs.examples.RecordedRows.{RecordedFilesAreWritten, RecordedValuesAreTaken, RecordedMovesAreMet, DamagedLinesAreTold, DamagedFilesAreTold, OtherFilesAreRefused};
ghost use Rattle.ssa_model.specs.examples.FittingRows.{RecordsFit, BodyRecordsFit, RepeatedLeafMisfits, WrongLeafMisfits, WrongPartMisfits, PutAgainMisfits, CutKeyFieldMisfits, CutNothingMisfits, GoneNobodyMisfits};
ghost use Rattle.ssa_model.specs.examples.PlaceRows.{ItemReplaced, OtherPartKept, IsPlaceMet};
ghost use Rattle.ssa_model.specs.examples.RecordReadingRows.{RecordsAreRead, ShapesAreTold, OtherShapesAreRefused, ReadStatesAreMet};
ghost use Rattle.ssa_model.specs.examples.RecordRows.{FirstApplyRecord, ForcedRecord, GivenUpRecord, RemovedItemRecord, RemovedItemPlace, ReorderRecord, RepeatRecord, StripRecord, SetFilledRecord, SetEmptiedRecord, LiveItemsRecord, LedRecord, LedByCommand, ForcedFacts, ReorderFacts, RemovedItemFacts, FirstApplyText, ForcedText, RemovedItemText, ReorderText, RecordsAreMet};

/// The sizes of the records of worked commands, back and forth.
pub fn record_sizes()
    ensures first { FirstApplyRecord }
    ensures forced { ForcedRecord }
    ensures given_up { GivenUpRecord }
    ensures removed { RemovedItemRecord }
    ensures reorder { ReorderRecord }
    ensures repeat { RepeatRecord }
    ensures strip { StripRecord }
    ensures emptied { SetEmptiedRecord }
    ensures filled { SetFilledRecord }
    ensures live { LiveItemsRecord }
    ensures led { LedRecord }
    ensures by_command { LedByCommand }
    ensures place { RemovedItemPlace }
{}

/// In how many facts the states of worked commands differ.
pub fn record_facts()
    ensures forced { ForcedFacts }
    ensures reorder { ReorderFacts }
    ensures removed { RemovedItemFacts }
{}

/// The texts of the records of worked commands.
pub fn record_texts()
    ensures first { FirstApplyText }
    ensures forced { ForcedText }
    ensures removed { RemovedItemText }
    ensures reorder { ReorderText }
{}

/// The record of two sets, or of two tables whose common managers stand in one order, leads from the first to the second.
pub fn table_leads()
    ensures set { SetLeads }
    ensures table { TableLeads }
{}

/// The record of two bodies of one kind leads from the first to the second.
pub fn body_leads()
    ensures answers { CarryAnswers }
    ensures leads { BodyLeads }
{}

/// The record of two valid states whose common managers stand in one order leads from the first to the second.
pub fn record_leads()
    ensures { RecordLeads }
{}

/// The record of the way back is told by the record of the way there and the state that it leads from.
pub fn record_turns()
    ensures body { BodyTurns }
    ensures table { TableTurns }
    ensures state { RecordTurns }
{}

/// Where a record takes one valid state to another: it and the first fix the second, the two fix it, and its turned record takes the second back to the first.
/// The same holds of bodies and of tables, and a record of states takes them where its parts take theirs.
pub fn takes_laws()
    ensures target { FixesTarget }
    ensures steps { FixesRecord }
    ensures back { LeadsBack }
    ensures twice { TurnsTwice }
    ensures body { BodyLaws }
    ensures table { TableLaws }
    ensures parts { TakesByParts }
{}

/// A record holds no more than the facts in which its states differ.
pub fn size_bound()
    ensures body { BodyBound }
    ensures table { TableBound }
    ensures state { SizeBound }
{}

/// Two states differ in as many facts one way as the other.
pub fn facts_both_ways()
    ensures { FactsBothWays }
{}

/// What goes is taken out, and what comes is inserted at rising places: so a table and a list of items become those of the second state.
pub fn in_place()
    ensures table { TableIsInserted }
    ensures stayers { StayersAreLed }
    ensures items { ItemsAreInserted }
{}

/// The members of the record of two bodies are filters over the paths of one, in path order. Below a path of both it is the record of what they have there.
pub fn record_walks()
    ensures cut { CutsAreFiltered }
    ensures leaves { LeavesAreFiltered }
    ensures orders { OrdersAreFiltered }
    ensures put { PutsAreFiltered }
    ensures below { RecordBelow }
{}

/// The value of a part is the value that the body has at the part's path.
pub fn part_is_value()
    ensures { PartIsValue }
{}

/// A record leads from a body to the other without regard to their schema, and so part by part: below a path of both, by what the record has there.
pub fn carry_walks()
    ensures leads { TreeLeads }
    ensures trees { BodiesAreTrees }
    ensures part { PartIsTree }
    ensures below { CarryBelow }
{}

/// The states of a worked example meet what the laws ask of two states.
pub fn records_are_met()
    ensures { RecordsAreMet }
{}

/// The value of the record of two states has the shape of a record, and the record is read from it, where the states' paths and moments are read.
pub fn record_readings()
    ensures shape { RecordTextsHaveShape }
    ensures read { RecordTextsAreRead }
{}

/// The records of worked commands are read from their values. Some values have the shape of a record, and some have not.
pub fn records_are_read()
    ensures read { RecordsAreRead }
    ensures shapes { ShapesAreTold }
    ensures others { OtherShapesAreRefused }
    ensures met { ReadStatesAreMet }
{}

/// The bench file of records of a bench is taken as that bench, and what is taken has the text as its file.
/// A text that tells of a record that doesn't fit is not taken, and each line of two valid states has the shape of a line.
pub fn recorded_files()
    ensures taken { RecordedFilesAreTaken }
    ensures text { TakenIsRecordedText }
    ensures misfit { MisfitIsRefused }
    ensures shape { MovesHaveShape }
{}

/// From one line of a bench file of records a move is taken, or its fault is told. The line of a move between two states is taken as that move; a value
/// without the shape of a line, and one whose record is none from its state, are told; a value that says a label and the record of two states is their line.
pub fn recorded_moves()
    ensures line { LineIsMove }
    ensures shapeless { ShapelessIsNoMove }
    ensures misfit { MisfitIsTold }
    ensures parts { LineOfParts }
{}

/// Bench files of records are written and taken again, worked by computation. The line of such a file meets what the laws of one line ask.
pub fn recorded_files_are_worked()
    ensures written { RecordedFilesAreWritten }
    ensures taken { RecordedValuesAreTaken }
    ensures moves { RecordedMovesAreMet }
{}

/// Damaged lines of a bench file of records, and files with such lines, have their faults, and other texts are refused.
pub fn damaged_records_are_told()
    ensures lines { DamagedLinesAreTold }
    ensures files { DamagedFilesAreTold }
    ensures others { OtherFilesAreRefused }
{}

/// A record that fits a body of a kind takes it to what it leads to.
pub fn fitting_body_leads()
    ensures { FittingBodyLeads }
{}

/// A record that takes a body of a kind to another of the kind fits it.
pub fn taken_body_fits()
    ensures { TakenBodyFits }
{}

/// A record that fits a table of a body takes it to what it leads to, a table of the body after it.
pub fn fitting_table_leads()
    ensures { FittingTableLeads }
{}

/// A record that takes a table to a table of a body, which has nothing of what is cut, fits it.
pub fn taken_table_fits()
    ensures { TakenTableFits }
{}

/// A record fits a valid state exactly where it takes it to another, and then it takes it to what it leads to.
pub fn fitting_records()
    ensures leads { FittingLeads }
    ensures taken { TakenFits }
{}

/// The records of worked commands fit the states before and after them, and those of worked bodies fit them.
pub fn records_fit()
    ensures states { RecordsFit }
    ensures bodies { BodyRecordsFit }
{}

/// Damaged records don't fit.
pub fn damaged_records_do_not_fit()
    ensures repeated { RepeatedLeafMisfits }
    ensures wrong_leaf { WrongLeafMisfits }
    ensures wrong_part { WrongPartMisfits }
    ensures again { PutAgainMisfits }
    ensures key { CutKeyFieldMisfits }
    ensures nothing { CutNothingMisfits }
    ensures nobody { GoneNobodyMisfits }
{}

/// A body with a part in place of what it has at and below a path: what it answers, that it is a body of the kind again and rooted, and how large it is.
pub fn replaced_parts()
    ensures answers { ReplacedAnswers }
    ensures parts { PartsFit }
    ensures fits { ReplacedFits }
    ensures rooted { ReplacedIsRooted }
    ensures size { ReplacedSize }
{}

/// A record that changes a body below one path alone leads to the body with something else there, and the path stays.
pub fn record_places()
    ensures there { ChangesThere }
    ensures stays { PlaceStays }
{}

/// At a place of a kind inside a schema's: what may stand there, that a valid body stays valid, and that what a body has there is read from its value.
pub fn kind_places()
    ensures fits { KindsFit }
    ensures valid { PlaceIsValid }
    ensures read { PlaceIsRead }
{}

/// A record that changes one field of an item leads to the body with another item there, worked by computation. It meets what the laws ask.
pub fn places_are_replaced()
    ensures item { ItemReplaced }
    ensures other { OtherPartKept }
    ensures met { IsPlaceMet }
{}
