//! What `options` reads from words: each law is the contract of a function that does nothing.

ghost use Rattle.pt_options.specs.Laws.{DefaultsStand, FilesAreNamed, TurnsAreTold, WrongTurnsAreRefused, ModesAreTold};
ghost use Rattle.pt_options.specs.Laws.{EpochsAreTold, UntilsAreTold, WrongEpochsAreRefused, WrongUntilsAreRefused};
ghost use Rattle.pt_options.specs.Laws.{WrongModesAreRefused, PrintsAreTold, WrongPrintsAreRefused, HelpIsAsked};
ghost use Rattle.pt_options.specs.Laws.{VersionIsAsked, ExplainingIsTold, ExplainingTakesNoValue};

/// Without words the script is read from standard input and run on one thread, for 100 turns and one epoch. The history
/// is printed, and no fault is explained.
pub fn defaults_stand()
    ensures { DefaultsStand }
{}

/// A single word names the file if no hyphen begins it, and so does a hyphen alone.
pub fn files_are_named()
    ensures { FilesAreNamed }
{}

/// `--turns=N` asks for that many turns, if N is a number from 0 to 1,000,000.
pub fn turns_are_told()
    ensures { TurnsAreTold }
{}

/// Any other text there fails as a value that is not valid.
pub fn wrong_turns_are_refused()
    ensures { WrongTurnsAreRefused }
{}

/// `--epochs=N` asks for that many epochs, if N is a number from 1 to 1,000,000.
pub fn epochs_are_told()
    ensures { EpochsAreTold }
{}

/// Any other text there fails as a value that is not valid.
pub fn wrong_epochs_are_refused()
    ensures { WrongEpochsAreRefused }
{}

/// `--threads=single` and `--threads=many` ask for these.
pub fn modes_are_told()
    ensures { ModesAreTold }
{}

/// Any other text there fails as a value that does not exist.
pub fn wrong_modes_are_refused()
    ensures { WrongModesAreRefused }
{}

/// `--until=turns` and `--until=quiet` ask for these.
pub fn untils_are_told()
    ensures { UntilsAreTold }
{}

/// Any other text there fails as a value that does not exist.
pub fn wrong_untils_are_refused()
    ensures { WrongUntilsAreRefused }
{}

/// `--print=summary`, `--print=history`, `--print=chart`, `--print=mermaid`, `--print=json`, `--print=steps` and
/// `--print=page` ask for these.
pub fn prints_are_told()
    ensures { PrintsAreTold }
{}

/// Any other text there fails as a value that does not exist.
pub fn wrong_prints_are_refused()
    ensures { WrongPrintsAreRefused }
{}

/// `--explain` asks that faults be explained.
pub fn explaining_is_told()
    ensures { ExplainingIsTold }
{}

/// `--explain` takes no value: any text after `--explain=` is one value too many.
pub fn explaining_takes_no_value()
    ensures { ExplainingTakesNoValue }
{}

/// `--help` and `-h` ask for help, which is returned as an error of its own kind.
pub fn help_is_asked()
    ensures { HelpIsAsked }
{}

/// `--version` and `-V` ask for the version, which is returned as an error of its own kind.
pub fn version_is_asked()
    ensures { VersionIsAsked }
{}
