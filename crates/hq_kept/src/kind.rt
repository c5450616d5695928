//! The two kinds of notices.

/// What a notice tells of.
#[derive(Clone, Copy, Debug, PartialEq, Eq, Drop)]
pub enum Kind {
    /// No further attempt is made.
    Failure,
    /// Attempts go on.
    Delay,
}
