//! What a sweep makes of one message.

/// At how many seconds after its arrival a message expires: five days.
pub const EXPIRY_SECONDS: u64 = 432_000;

/// What a sweep makes of a message.
#[derive(Clone, Copy, Debug, PartialEq, Eq, Drop)]
pub enum Swept {
    /// It is too old, and the caller removes it.
    Expired,
    /// Its sender is to be told of the delay, once.
    Warned,
    /// Nothing.
    Untouched,
}
