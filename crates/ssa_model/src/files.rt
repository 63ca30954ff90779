//! Laws of bench files in all formats: each is the contract of a function that does nothing.

ghost use Rattle.ssa_model.specs.laws.Formats.{FilesAreTaken, TakenIsFile};
ghost use Rattle.ssa_model.specs.laws.LineByLine.{FilesAreRead};
ghost use Rattle.ssa_model.specs.examples.FormatRows.{HeadsAreTold, FilesOfAllAreTaken, FilesAreMet, MixedFilesAreRefused, FaultsAreTold, SubresourcesAreTold};

/// The file of a bench, in whatever format, is taken as that bench, by what its first line says. What is taken as a valid bench is its file in one of the formats.
pub fn files_are_taken()
    ensures taken { FilesAreTaken }
    ensures file { TakenIsFile }
{}

/// What is read of a bench file line by line is what is taken of its whole text, or the fault of its first faulty line.
pub fn files_are_read()
    ensures { FilesAreRead }
{}

/// First lines are told, and files in each format are taken, worked by computation. There is such a file in each format; others are refused, and have their faults.
pub fn formats_are_worked()
    ensures heads { HeadsAreTold }
    ensures taken { FilesOfAllAreTaken }
    ensures met { FilesAreMet }
    ensures mixed { MixedFilesAreRefused }
    ensures faults { FaultsAreTold }
    ensures subresources { SubresourcesAreTold }
{}
