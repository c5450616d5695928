//! Which calls take long.

/// Whether the call of a path takes long: a call of all customers, a sweep, a report, an import, or
/// a move of many messages. It gets a round of its own: it delays no other reply, and its reply,
/// which may be long, is held beside no other.
pub fn takes_long(path: &str) -> bool {
    let word = path.splitn(4, '/').nth(2).unwrap_or("");
    matches!(path, "/relay/usage" | "/relay/due")
        || matches!(
            word,
            "sweep"
                | "sweep-from"
                | "usage-from"
                | "due-from"
                | "report"
                | "import"
                | "hold-all"
                | "release-all"
                | "delete-all"
                | "hold-matching"
                | "release-matching"
                | "delete-matching"
        )
}
