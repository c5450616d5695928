//! Why answering an input or a client ended early.

/// Why a batch, or the exchange with one client, ended early.
#[derive(Clone, Copy, Debug, PartialEq, Eq)]
pub enum EngineFault {
    /// A read failed, and was not just interrupted.
    Read,
    /// A reply could not be written.
    Write,
    /// The input had not ended after the most reads: 67,108,864 of a batch, 300,000 of one request.
    TooManyReads,
    /// There was no room for a line of a batch; nothing was read.
    WantOfMemory,
}
