//! The settings that words name.

ghost use Rattle.std.specs.Prelude.{option_map};
ghost use Rattle.hq_values.specs.Readers.{seen_by};
ghost use Rattle.hq_settings.specs.Seen.{settings_seen};
ghost use Rattle.hq_words.specs.Asked.{key_given};
ghost use Rattle.hq_settings.specs.SettingUp.{SetsUp};

use crate::files::{customers_of, keys_of};
use crate::relay_words::relay_of;
use crate::{Files, Settings, Trouble};
use hq_words::RelayKey;

/// The settings of a relay's name, its key, the path of its directory, and that of the keys beside
/// it, checked in this order, and then the relay's key against all keys of customers. Each file is
/// read where those before are good.
pub fn set_up<F: Files>(
    rt: &F,
    host: &str,
    relay_key: RelayKey,
    directory: &str,
    keys: Option<&str>,
) -> Result<Settings, Trouble>
    ensures { SetsUp (F.reads rt.now) host.now (key_given relay_key.entry) directory.now
        (option_map (λ k. k.now) keys.entry) result }
{
    let relay = relay_of(rt, host, relay_key)?;
    let customers = customers_of(rt, directory)?;
    let named = keys_of(rt, customers.as_slice(), keys)?;
    Ok(Settings::with_keys(rt.alloc(), relay, customers, named)?)
}
