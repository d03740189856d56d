//! Laws on what `export` writes of the run in a file.

ghost use Rattle.run_answers.specs.ExportLaws.{ExportsAreReadBack, ReadRunsArePlain};

/// The law that each run which is read from a file has the program's own numbers, and vehicles whose paths have a text.
pub fn read_runs_are_plain()
    ensures { ReadRunsArePlain }
{}

/// The law that in each text that `export` writes the readers find what the run in the file has. Of the run nothing is
/// asked, and the road has to be one in the program's own numbers.
pub fn exports_are_read_back()
    ensures { ExportsAreReadBack }
{}
