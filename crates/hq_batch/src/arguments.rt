//! The words that a program is given.

use std::{env, io};

/// The words after the program's name. A word that is not UTF-8, or want of memory, is an error,
/// which `not_begun` tells.
pub fn words(rt: &HostRuntime) -> io::Result<Vec<String>> {
    let mut words = Vec::new(rt.alloc());
    for word in env::args(rt)?.skip(1) {
        words.push(word)?;
    }
    Ok(words)
}
