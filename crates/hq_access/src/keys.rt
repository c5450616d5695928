//! The keys under which an address is looked up, in order.

ghost use Rattle.std.specs.Prelude.{◌≡◌, ◌++◌, ◌∷◌, [], option_map, string_bytes};
ghost use Rattle.std.specs.List.{slice_split};
ghost use Rattle.hq_memory.specs.Making.{MadeIn};
ghost use Rattle.hq_values.specs.Addresses.{is_dot};
ghost use Rattle.hq_values.specs.declared.address.Sender.TheVariants.{From};
ghost use Rattle.hq_kept.specs.Keys as rules;

use hq_kept::{LookupKey, NULL_KEY};
use hq_memory::Memory;
use hq_values::{Address, Sender, TryCopy};
use std::alloc::AllocError;

/// The base of a local part: what stands before its first `+`, where at least one byte does.
fn base_of(local: &str) -> Option<&str>
    ensures { option_map (λ base. base.now) result ≡ rules.base_of local.now }
{
    match local.split_once('+') {
        Some((base, _)) if !base.is_empty() => Some(base),
        _ => None,
    }
}

/// The key `name@domain`.
fn at<M: Memory>(memory: M, domain: &str, name: &str) -> Result<LookupKey, AllocError>
    ensures { MadeIn M.refused result (λ key. key ≡ rules.at domain.now name.now) }
{
    let text = memory.show(format_args!("{name}@{domain}"))?;
    Ok(LookupKey::new(text))
}

/// Adds a dot and what follows it, for each dot of a domain.
fn add_parents<M: Memory>(
    memory: M,
    keys: &mut Vec<LookupKey>,
    domain: &str,
) -> Result<(), AllocError>
    ensures { MadeIn M.refused result (λ _. keys.new.items ≡ keys.old.items
        ++ rules.parents (slice_split is_dot domain.now)) }
{
    let mut rest = domain;
    while let Some((_, above)) = rest.split_once('.') {
        let text = memory.show(format_args!(".{above}"))?;
        memory.push(keys, LookupKey::new(text))?;
        rest = above;
    }
    Ok(())
}

/// The keys of an address, whose parts are folded.
fn address_keys<M: Memory>(
    memory: M,
    local: &str,
    domain: &str,
) -> Result<Vec<LookupKey>, AllocError>
    ensures { MadeIn M.refused result (λ keys. keys.items
        ≡ rules.address_keys local.now domain.now) }
{
    let base = base_of(local);
    let mut keys = memory.one(at(memory, domain, local)?)?;
    if let Some(base) = base {
        memory.push(&mut keys, at(memory, domain, base)?)?;
    }
    let whole = memory.text(domain)?;
    memory.push(&mut keys, LookupKey::new(whole))?;
    add_parents(memory, &mut keys, domain)?;
    memory.push(&mut keys, at(memory, "", local)?)?;
    if let Some(base) = base {
        memory.push(&mut keys, at(memory, "", base)?)?;
    }
    Ok(keys)
}

/// The keys of a recipient, or of a sender that has an address, in the order in which they are
/// tried: the address, its base at the domain, the domain, `.domain` for each domain above it,
/// `user@`, and its base with `@`.
pub fn keys_of_address<M: Memory>(
    memory: M,
    address: &Address,
) -> Result<Vec<LookupKey>, AllocError>
    ensures { MadeIn M.refused result (λ keys. keys.items ≡ rules.keys_of (From address.now)) }
{
    let local = memory.lower(address.local())?;
    let domain = memory.lower(address.domain())?;
    address_keys(memory, local.as_str(), domain.as_str())
}

/// The keys of a sender or a recipient: those of its address. The null sender has `<>` alone.
pub fn keys_of<M: Memory>(memory: M, who: &Sender) -> Result<Vec<LookupKey>, AllocError>
    ensures { MadeIn M.refused result (λ keys. keys.items ≡ rules.keys_of who.now) }
{
    match who {
        Sender::Null => {
            let text = memory.text(NULL_KEY)?;
            let keys = memory.one(LookupKey::new(text))?;
            Ok(keys)
        }
        Sender::From(address) => keys_of_address(memory, address),
    }
}
