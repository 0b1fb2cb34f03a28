//! Laws of records. Each function does nothing; its contract is the law.

ghost use Rattle.pb_record.specs.Laws.{TellsApart, SaysWhereItEnds, FirstPartsSayNothing, MoreBytesSayNothing, OnlyRecordsAreSaid, PathsHaveNoByte0, NoZeroLeads, NumbersHaveDigits, NoZeroLeadsRecord, RecordNumbersHaveDigits, RecordNumbersFit, HasOneReading, HasReading};
ghost use Rattle.pb_record.specs.Commands.{AskedIsCommand, CommandIsAsked, SameAsked};

/// The bytes of a record differ from the bytes of every other record, of either format, and
/// determine where the record ends. Therefore no record is a prefix of another record. A record
/// followed by more bytes is not a record. A proper prefix of a record, which a torn write may
/// leave, is not a record either.
pub fn records_lie_apart()
    ensures told { TellsApart }
    ensures ends { SaysWhereItEnds }
    ensures torn { FirstPartsSayNothing }
    ensures longer { MoreBytesSayNothing }
{}

/// A successful read returns a record. The record's texts are UTF-8, its paths are normalised, and
/// no number exceeds the maximum. The variables are sorted by name, and each name occurs once. If a
/// value lacks one of these properties, the bytes that spell the value are not a record. A path has
/// no byte 0.
pub fn only_records_are_read()
    ensures said { OnlyRecordsAreSaid }
    ensures paths { PathsHaveNoByte0 }
{}

/// A number has one spelling: it has digits, and begins with 0 only if it is 0. The same is true
/// for the run number of a record, which is at most 18446744073709551615.
pub fn numbers_have_one_spelling()
    ensures zero { NoZeroLeads }
    ensures digits { NumbersHaveDigits }
    ensures record_zero { NoZeroLeadsRecord }
    ensures record_digits { RecordNumbersHaveDigits }
    ensures record_fits { RecordNumbersFit }
{}

/// A text is read in one way: the contract of `read_record` determines its result.
pub fn texts_have_one_reading()
    ensures { HasOneReading }
{}

/// There is a function that returns the reading of each text. So a statement about every such
/// function is not vacuous.
pub fn texts_have_a_reading()
    ensures { HasReading }
{}

/// A command, turned into a request and back, is the same command. A request, turned into a command
/// and back, is the same request. If a command agrees with a request (`asks_as`) and sets the same
/// variables (`sets_as`), the command is the requested command.
pub fn commands_are_asked()
    ensures command { AskedIsCommand }
    ensures asked { CommandIsAsked }
    ensures same { SameAsked }
{}
