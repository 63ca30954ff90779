//! Worked rows of the table.
ghost use Rattle.ssa_words.specs.WordRows.{ApplyIsByKubectl, ApplyIsByManager, DepthIsRead, HelpIsAsked, OtherDepthsAreRefused, OtherSubresourcesAreRefused, OthersAreRefused, ShowIsRead, StatusIsRead, Wherever};

/// What `clap`'s definitions make of a few words, worked by computation.
pub fn words_are_worked()
    ensures kubectl { Wherever ApplyIsByKubectl }
    ensures manager { Wherever ApplyIsByManager }
    ensures status { Wherever StatusIsRead }
    ensures subresources { Wherever OtherSubresourcesAreRefused }
    ensures depth { Wherever DepthIsRead }
    ensures depths { Wherever OtherDepthsAreRefused }
    ensures show { Wherever ShowIsRead }
    ensures others { Wherever OthersAreRefused }
    ensures help { Wherever HelpIsAsked }
{}
