//! Whose an exchange is, also where it is refused.

ghost use Rattle.std.specs.Prelude.{◌≡◌, option_map};
ghost use Rattle.hq_values.specs.Readers.{seen_by};
ghost use Rattle.hq_requests.specs.Directories.{held_seen, whose_seen};
ghost use Rattle.hq_requests.specs.Named as named;

use crate::directory::Directory;
use crate::exchanges::Exchange;
use crate::request::key_of;
use crate::{Caller, Holder, Role, last_segment};
use hq_values::Refusal;

/// The customer that the relay names at the end of a path, where the path takes its key for one.
fn named_at<'d>(
    directory: &'d Directory,
    key: Option<&str>,
    path: &str,
) -> Result<Holder<'d>, Refusal>
    ensures { seen_by held_seen result
        ≡ named.named_at directory.now (option_map (λ k. k.now) key.entry) path.now }
{
    let methods = directory.methods(path).ok_or(Refusal::NoRoute)?;
    match methods.role() {
        Role::Relay => directory.holder(Role::Relay, key, last_segment(path)),
        Role::Customer | Role::RelayForAll | Role::RelayFrom => Err(Refusal::NoRoute),
    }
}

/// The customer whose key is shown, or whom the relay names, with the name of the key: `None` for
/// another. It takes no memory.
pub fn caller_named<'d>(directory: &'d Directory, exchange: &Exchange) -> Option<Caller<'d>>
    ensures { option_map whose_seen result ≡ named.whose_exchange directory.now exchange.now }
{
    let (key, path) = (key_of(exchange), exchange.path.as_str());
    if let Ok(own) = directory.holder(Role::Customer, key, last_segment(path)) {
        return Some(own.caller);
    }
    match named_at(directory, key, path) {
        Ok(named) => Some(named.caller),
        Err(_) => None,
    }
}
