//! Addresses without the later ones of those that are the same.

ghost use Rattle.std.specs.Prelude.{◌≡◌, ◌++◌, ◌∷◌, [], if◌then◌else◌};
ghost use Rattle.std.specs.List.{list_any};
ghost use Rattle.hq_memory.specs.Making.{MadeIn};
ghost use Rattle.hq_tables.specs.Sound.{same_address};
ghost use Rattle.hq_rules.specs.Submissions as rules;

use hq_memory::Memory;
use hq_values::Address;
use std::alloc::AllocError;

/// Whether two addresses are the same.
fn is_same(one: &Address, other: &Address) -> bool
    ensures { result ≡ same_address one.now other.now }
{
    one.same(other)
}

/// Whether an address is the same as one of these.
fn is_among(addresses: &[Address], address: &Address) -> bool
    ensures { result ≡ list_any (λ known. same_address known address.now) addresses.now }
{
    addresses.iter().any(|known| is_same(known, address))
}

/// Adds an address that is new.
fn add_new<M: Memory>(
    memory: M,
    addresses: &mut Vec<Address>,
    address: Address,
) -> Result<(), AllocError>
    ensures { MadeIn M.refused result (λ _. addresses.new.items ≡ addresses.old.items ++
        (if list_any (λ known. same_address known address) addresses.old.items then [] else address
        ∷ [])) }
{
    if !is_among(addresses.as_slice(), &address) {
        memory.push(addresses, address)?;
    }
    Ok(())
}

/// Each address, without the later ones that are the same, in their order; or want of memory.
pub fn distinct<M: Memory>(memory: M, addresses: Vec<Address>) -> Result<Vec<Address>, AllocError>
    ensures { MadeIn M.refused result (λ kept. kept.items ≡ rules.distinct addresses.items) }
{
    let mut kept = memory.none();
    for address in addresses {
        add_new(memory, &mut kept, address)?;
    }
    Ok(kept)
}
