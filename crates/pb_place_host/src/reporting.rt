//! Places that can say why something failed.

ghost use Rattle.pb_place_host.specs.Reports.{AreReported};

use pb_data::Text;
use pb_place::Memory;
use pb_place_types::Child;

/// What a place knows of a failure besides its fault, as texts for people: at most ten, without
/// line feeds. A place may know nothing. The functions of this trait use no memory, and are not
/// counted as calls.
pub trait Reporting {
    /// Returns what is known of the last call on files or variables that failed.
    fn failed_call(&self) -> &[Text]
        ensures { AreReported result.now }
    {
        &[]
    }

    /// Returns what is known of a child that did not answer, by its key. The key of a unit's child
    /// is the name of its output folder. A child without an output folder has the key `-vV`.
    fn failed_child(&self, _key: &str) -> &[Text]
        ensures { AreReported result.now }
    {
        &[]
    }

    /// Returns how the last child without an output folder answered, if there was such an answer.
    fn answered_query(&self) -> &[Text]
        ensures { AreReported result.now }
    {
        &[]
    }

    /// Returns whether something was there at the path of the last `remove_tree`, if that call did
    /// not fail.
    fn has_removed(&self) -> bool {
        false
    }

    /// Returns links that lead out of the target folder. The last child left these links in its
    /// output folder, if this child was a script.
    fn links_out(&self) -> &[Text]
        ensures { AreReported result.now }
    {
        &[]
    }
}

/// A place in memory knows no more than its faults.
impl<C: Child> Reporting for Memory<C> {}
