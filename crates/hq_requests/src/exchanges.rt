//! What is asked of the desk from outside, as it came.

use hq_values::Moment;

/// What was asked at a moment, as it came.
#[derive(Drop)]
pub struct Exchange {
    /// When.
    pub at: Moment,
    /// The method, as `GET`.
    pub method: String,
    /// The path, as it stands.
    pub path: String,
    /// The key that was shown.
    pub key: Option<String>,
    /// The body. More than 262,144 bytes are refused as 6 `BodyTooLong`.
    pub body: Vec<u8>,
}
