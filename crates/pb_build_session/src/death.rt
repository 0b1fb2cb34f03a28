//! How a start fails if a session sets it to fail.

ghost use Rattle.std.specs.Prelude.{◌≡◌, ◌≢◌};
ghost use Rattle.pb_place_types.specs.declared.place.StartFault.TheVariants as start;
ghost use Rattle.pb_build_session.specs.Deaths.{fault_of, death_named};
ghost use Rattle.pb_build_session.specs.Faults.{UnlessOom};

use crate::fault::BadSession;
use pb_place_types::StartFault;

/// How a start fails if a session sets it to fail (our own choice). Out of memory, which is not a
/// failure of the outside world, is not among these ways.
#[derive(Clone, Copy)]
pub enum Death {
    /// The program could not be started. No file remains.
    CannotStart,
    /// The child ended without a status. The first half of the reply's files remains, in byte order
    /// of their paths. If the number of files is odd, the half is rounded down.
    Died,
    /// The child's output could not be captured. The same half of the files remains as for `Died`.
    Capture,
}

impl Death {
    /// Returns the fault of a start that is set to fail in this way. The fault and the way have the
    /// same name.
    pub fn fault(&self) -> StartFault
        ensures fault { result ≡ fault_of self.now }
        ensures real { result ≢ start.OutOfMemory }
    {
        match self {
            Death::CannotStart => StartFault::CannotStart,
            Death::Died => StartFault::Died,
            Death::Capture => StartFault::Capture,
        }
    }
}

/// Returns the way of failing with this name.
pub(crate) fn death_named(name: &str) -> Result<Death, BadSession>
    ensures { UnlessOom result (death_named name.now) }
{
    match name {
        "CannotStart" => Ok(Death::CannotStart),
        "Died" => Ok(Death::Died),
        "Capture" => Ok(Death::Capture),
        _ => Err(BadSession::BadForm),
    }
}
