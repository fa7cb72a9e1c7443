//! Laws on the files of saved machines.

ghost use Rattle.saved_machines.specs.Laws.{ConfigurationsAreSaved, CutSavedFileIsShort, ReadMachinesAreRestorable, RestorableMachinesKeepFacts, RestoresWhatWasSaved, SavableMachinesFit, SavableMachinesReadBack, SavedFilesAreLawful, SavedFilesArePrefixFree, SavedMachinesHaveOneFile, SavedPagesRestore};

/// The files of the machines that run a container, one for each.
pub fn saved_files_are_lawful()
    // Law: what is read of a file is what it spells, and what is spelled is read.
    ensures law { SavedFilesAreLawful }
    // Law: no file is a proper prefix of another.
    ensures prefix { SavedFilesArePrefixFree }
    // Law: a saved machine has one file.
    ensures one { SavedMachinesHaveOneFile }
    // Law: a file that is cut is short, at a place in what is left of it.
    ensures cut { CutSavedFileIsShort }
{}

/// A machine whose numbers are in the ranges of their fields has a file.
pub fn savable_machines_have_files()
    // Law: what is saved of it has a spelling.
    ensures law { SavableMachinesFit }
    // Law: its file is read as what was saved of it.
    ensures read { SavableMachinesReadBack }
{}

/// The pages that are saved of a memory say what it holds.
pub fn saved_pages_restore()
    // Law: what was loaded, with these pages, is that memory.
    ensures law { SavedPagesRestore }
{}

/// A machine that goes on from a file that was read.
pub fn restorable_machines_keep_facts()
    // Law: what is read of a file can be restored, under a configuration that meets the rules.
    ensures read { ReadMachinesAreRestorable }
    // Law: what holds of every machine at all times holds of it, under a configuration that meets the rules.
    ensures law { RestorableMachinesKeepFacts }
{}

/// What is saved of a machine is that machine, but for the input words that were read.
pub fn restores_what_was_saved()
    // Law: with the configuration and the images of the machine, its file gives the machine, which was given the words that
    // are left.
    ensures law { RestoresWhatWasSaved }
    // Law: a configuration that meets the rules has what is needed of it.
    ensures conf { ConfigurationsAreSaved }
{}
