//! Laws of the store. Each function does nothing: its contract is the law.

ghost use Rattle.pb_store.specs.Asking.{FirstNameIsFirst};
ghost use Rattle.pb_store.specs.Differences.{DifferencesAreOne, UnchangedIsSame};
ghost use Rattle.pb_store.specs.Looking.{TestsDecide};

/// States that the world determines the first difference of a unit. If two calls of `differs` in
/// the same world return no error, both return the same difference, or both return none.
pub fn differences_are_one()
    ensures { DifferencesAreOne }
{}

/// Suppose that `differs` returns a name for two rows of variables, each sorted by name. This name
/// is the first, in byte order, at which the rows differ. At this name only one row has a text, or
/// the two texts differ. At each lesser name both rows have the same text, or neither row has a
/// text.
pub fn first_name_is_first()
    ensures { FirstNameIsFirst }
{}

/// States that each test of `differs` agrees with its definition. By three tests, `differs` decides
/// how far it looks:
///
/// - whether the present value of an input is the recorded value;
/// - whether a command is the recorded command;
/// - whether a needed unit has the files that a record of format 1 contains.
pub fn tests_decide()
    ensures { TestsDecide }
{}

/// States how the comparison and `IsSame` agree. If nothing differs from a unit's record, `IsSame`
/// is true of the record. The converse is true if `NamesPaths` is true of the needed units in the
/// record.
pub fn unchanged_is_same()
    ensures { UnchangedIsSame }
{}
