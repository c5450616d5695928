//! The relay that words name, whose key may stand in a file.

ghost use Rattle.std.specs.Prelude.{◌≡◌, ℕ, List};
ghost use Rattle.std.specs.Io.BufRead.{strip_last};
ghost use Rattle.hq_values.specs.Readers.{Reads, seen_by};
ghost use Rattle.hq_settings.specs.Seen.{relay_seen};
ghost use Rattle.hq_settings.specs.Settings.{relay_in};
ghost use Rattle.hq_words.specs.Asked.{key_given};
ghost use Rattle.hq_words.specs.Given.{InFile};
ghost use Rattle.hq_settings.specs.SettingUp.{NamesRelay, key_line};

use crate::{Files, Relay, Trouble};
use hq_values::{Fail, Host};
use hq_words::RelayKey;
use std::alloc::Global;

/// What stands before this byte where it is the last one.
fn before_last(byte: u8, text: &[u8]) -> &[u8]
    ensures { result.now ≡ strip_last byte text.now }
{
    match text.split_last() {
        Some((last, before)) if *last == byte => before,
        _ => text,
    }
}

/// The key on the one line of a file.
fn key_line(file: &[u8]) -> &[u8]
    ensures { result.now ≡ key_line file.now }
{
    let line = before_last(b'\n', file);
    if line.len() == file.len() {
        return file;
    }
    before_last(b'\r', line)
}

/// The text of a key; of what is no text, an empty one, which is none either.
#[tactic(auto, using(crate::proofs::Keys::as_empty))]
fn key_text(key: &[u8]) -> &str
    ensures { (host : List ℕ) → relay_in host result.now ≡ relay_in host key.now }
{
    match str::from_utf8(key) {
        Ok(text) => text,
        Err(_) => "",
    }
}

/// The relay of this name, and of the key on the one line of a file.
fn relay_with(alloc: Global, host: &str, file: &[u8]) -> Result<Relay, Fail>
    ensures { Reads (seen_by relay_seen result) (relay_in host.now (key_line file.now)) }
{
    let key = key_text(key_line(file));
    Relay::new(alloc, host, key)
}

/// The relay of this name, and of the key in the file of a path, which is read where the name is
/// good.
fn relay_in_file<F: Files>(rt: &F, host: &str, path: &str) -> Result<Relay, Trouble>
    ensures { NamesRelay (F.reads rt.now) host.now (InFile path.now)
        (seen_by relay_seen result) }
{
    let name = Host::parse(rt.alloc(), host)?;
    let file = rt.read(path)?;
    Ok(relay_with(rt.alloc(), name.as_str(), file.as_slice())?)
}

/// The relay of this name and this key: 56 for the name; that the file of the key cannot be read;
/// 57 for the form of the key; or want of memory. A file has the key on its one line: further lines
/// are none of a key.
pub fn relay_of<F: Files>(rt: &F, host: &str, key: RelayKey) -> Result<Relay, Trouble>
    ensures { NamesRelay (F.reads rt.now) host.now (key_given key.entry)
        (seen_by relay_seen result) }
{
    match key {
        RelayKey::Given(key) => Ok(Relay::new(rt.alloc(), host, key)?),
        RelayKey::InFile(path) => relay_in_file(rt, host, path),
    }
}
