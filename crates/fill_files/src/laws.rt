ghost use Rattle.fill_files.specs.RunFiles.{FilesAreAccepted};

/// The law of the files of runs: the trace in the table file of a program's run is accepted for what is claimed of the run.
pub fn file_laws()
    ensures accepted { FilesAreAccepted }
{}
