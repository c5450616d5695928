//! What can be asked of the desk for every customer at once.

ghost use Rattle.std.specs.Prelude.{◌≡◌};
ghost use Rattle.hq_rules.specs.Each.{each_call};

use crate::call::Call;

/// A call that can be asked of every customer at once.
#[derive(Clone, Copy, Debug, PartialEq, Eq, Drop)]
pub enum EachCall {
    /// `Call::Sweep`.
    Sweep,
    /// `Call::Usage`.
    Usage,
    /// `Call::Due`, from the start.
    Due,
}

impl EachCall {
    /// The call, for one of them.
    pub fn call(self) -> Call
        ensures { result ≡ each_call self }
    {
        match self {
            EachCall::Sweep => Call::Sweep,
            EachCall::Usage => Call::Usage,
            EachCall::Due => Call::Due(None),
        }
    }
}
