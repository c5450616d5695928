//! The moments of a clock, and what is printed of a connection that fails.

use hq_values::{EngineFault, Moment};
use std::io::Write;
use std::rt::Clock;
use std::time::SystemTime;

/// What tells moments. Which ones it told is a fact of this value alone: it is obtained by asking
/// it, and by nothing else.
pub trait Moments {
    ghost use Rattle.std.specs.Prelude.{IfSome};
    ghost use Rattle.hq_sockets.specs.Times.{Clocking};

    // it told this moment
    ghost tells: { Clocking Self };

    /// The moment now; `None` if it tells no moment of the desk.
    fn moment(&self) -> Option<Moment>
        ensures { IfSome result (tells self.now) };
}

/// The clock of the machine, of which no contract says anything.
impl Moments for HostRuntime {
    ghost use Rattle.std.specs.Prelude.{⊤};

    ghost tells = { λ _ _. ⊤ };

    fn moment(&self) -> Option<Moment> {
        moment_now(self)
    }
}

/// The moment that the clock tells, if it is one.
fn moment_now<C: Clock>(clock: &C) -> Option<Moment> {
    let now = SystemTime::now(clock).ok()?;
    let since = now.duration_since(SystemTime::UNIX_EPOCH).ok()?;
    Moment::new(since.as_secs())
}

/// Tells what a connection ended in; what cannot be written is not told.
pub(crate) fn tell<E: Write>(errors: &mut E, fault: EngineFault) {
    let line = match fault {
        EngineFault::Write => "hq: output\n",
        _ => "hq: input\n",
    };
    let _told = errors.write_all(line.as_bytes());
}
