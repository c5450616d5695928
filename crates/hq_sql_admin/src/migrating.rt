//! The word `migrate`: a store of the release before made one of this release.

ghost use Rattle.hq_sql_admin.specs.Migrations.{IsMigrationTold, MigrateEnds};

use hq_rules::Rendered;
use hq_settings::Trouble;
use hq_sql_shelf::Stores;
use hq_values::Fault;
use hq_words::Migrate;
use std::alloc::Global;
use std::fmt::Write;

/// The most bytes of what is printed of a migration.
const TEXT_BYTES: usize = 40;

/// What a migration is told as, written over a text that has room for it.
#[tactic(auto, unfolding(crate::specs::Migrations::migration_line))]
fn trouble_told(room: String, done: Result<u64, Fault>) -> Result<Rendered, Fault>
    ensures { IsMigrationTold done result }
{
    let count = done?;
    let mut text = room;
    text.clear();
    write!(text, "migrated {count} on hold\n")?;
    Ok(Rendered {
        number: 0,
        bytes: text.into_bytes(),
    })
}

/// Makes the store of a path, which is of the release before, one of this release, and tells how
/// many messages are on hold: each has a reason then. One of this release stays as it is, and 0 is
/// told. 92 for any other file, which stays as it is; 90 and 91 leave it as it was.
pub fn migrate<K: Stores>(
    alloc: Global,
    stores: &mut K,
    given: &Migrate,
) -> Result<Rendered, Trouble>
    ensures { MigrateEnds K.does stores.old stores.new given.now result }
{
    // (the room first, so that what is done is told)
    let room = match String::with_capacity(alloc, TEXT_BYTES) {
        Ok(room) => room,
        Err(_) => return Err(Trouble::from(Fault::WantOfMemory)),
    };
    let done = stores.migrate(given.store);
    Ok(trouble_told(room, done)?)
}
