//! Laws of dumps and journals, as contracts of functions without effect.
ghost use Rattle.sdb_dump.specs.DumpLaws.{TransformKeepsLimits, DumpsOfLogsAccepted, AcceptedAreDumpsOfLogs};
ghost use Rattle.sdb_dump.specs.LineSplit.{TextIsExact};
ghost use Rattle.sdb_dump.specs.CheckLaws.{CheckIsExact, LineReadsBack};
ghost use Rattle.sdb_dump.specs.LogListing.{LogsAreDumped};
ghost use Rattle.sdb_dump.specs.LogDumps.{DocumentsAreBounded, TextIsOfLogs};
ghost use Rattle.sdb_dump.specs.PrintLaws.{PrintedReadsBack, PrintedIsText};
ghost use Rattle.sdb_dump.specs.CheckStages.{StagesAreCheck};
ghost use Rattle.sdb_dump.specs.JournalLaws.{JournalIsExact, JournalLogsAreMade, ItemsAreNext};
ghost use Rattle.sdb_dump.specs.StoreMachineLaws.{RunsAreDurable, RestartsKeepSent};

/// States that the compact text of sound data is UTF-8 and parses to those data.
pub fn printed_reads_back()
    ensures read { PrintedReadsBack }
    ensures text { PrintedIsText }
{}

/// States that the line of an entry parses to the content that it was made of.
pub fn line_reads_back()
    ensures { LineReadsBack }
{}

/// States that the check accepts exactly the dumps of its entries.
pub fn check_is_exact()
    ensures { CheckIsExact }
{}

/// States that transforming a component within the limits against another one stays within the
/// limits.
pub fn transform_fits()
    ensures { TransformKeepsLimits }
{}

/// States that the check accepts the dumps of made logs within the limits, and no other lines.
pub fn dump_is_accepted()
    ensures accepted { DumpsOfLogsAccepted }
    ensures only { AcceptedAreDumpsOfLogs }
{}

/// States that checking line by line equals checking all lines at once.
pub fn stages_are_check()
    ensures { StagesAreCheck }
{}

/// States that the lines of made logs, key by key, are a dump of these logs.
pub fn logs_are_dumped()
    ensures { LogsAreDumped }
{}

/// States that a text is accepted if and only if it is a dump.
pub fn text_is_exact()
    ensures { TextIsExact }
{}

/// States that the document of a made log within the limits, at any version, is well formed and at
/// most 100 deep: a path has at most 50 steps, and a value that an operation inserts is at most 50
/// deep.
pub fn documents_are_bounded()
    ensures { DocumentsAreBounded }
{}

/// States that a text is accepted if and only if it is the dump of made logs within the limits, and
/// that it gives these logs. That texts are UTF-8 and numbers are in range follows from the types
/// of what was parsed.
pub fn text_is_of_logs()
    ensures { TextIsOfLogs }
{}

/// States that the lines of a journal restore exactly its items, and that other lines are refused
/// at the first wrong one.
pub fn journal_is_exact()
    ensures { JournalIsExact }
{}

/// States that the logs of a journal are made.
pub fn journal_logs_are_made()
    ensures { JournalLogsAreMade }
{}

/// States that an entry that `decide` stores on the logs of a journal, within the limits, may be its
/// next item, and so may a block of numbers up to 2^53 - 1.
pub fn items_are_next()
    ensures { ItemsAreNext }
{}

/// States what holds after each run of a server that saves entries before it sends them, and that a
/// restart removes no entry that was sent.
pub fn store_runs_are_durable()
    ensures durable { RunsAreDurable }
    ensures restart { RestartsKeepSent }
{}
