//! Laws over the texts and tables of schema 3, as `sqlite` reads and makes them, with no program in
//! them. Each is an empty function whose contract is the law.

ghost use Rattle.std.specs.Prelude.{◌≡◌, [], ◌∷◌};
ghost use Rattle.std.specs.List.{AllZip};
ghost use Rattle.sqlite_catalog.specs.Change.{created};
ghost use Rattle.hq_schema.specs.Made.{Defines, all_made, first_tables, desk_tables, desk_texts};
ghost use Rattle.hq_schema.specs.Schema.{version, holds, ends, version_alone, first_schema};
ghost use Rattle.hq_schema.specs.Schema.{second_schema, desk_schema};

/// Each text defines its table.
#[tactic(auto, using(crate::proofs::Texts::texts_defined))]
pub fn texts_define_the_tables()
    ensures { AllZip Defines desk_texts desk_tables }
{}

/// The tables of a desk, made in their order, make schema 3; the first alone makes the schema of a
/// store that lacks the others.
#[tactic(auto, using(crate::proofs::Texts::desk_is_made, crate::proofs::Texts::version_is_alone))]
pub fn tables_make_the_desk()
    ensures whole { all_made desk_tables ≡ desk_schema }
    ensures first { all_made (version ∷ []) ≡ version_alone }
{}

/// All but the tables of holds and of ends make the first schema; holds, made next, makes the
/// second of it; and ends, made last, makes schema 3.
#[tactic(auto, using(crate::proofs::Texts::first_is_made, crate::proofs::Texts::holds_made_last, crate::proofs::Texts::ends_made_last))]
pub fn later_tables_make_later_schemas()
    ensures first { all_made first_tables ≡ first_schema }
    ensures second { created first_schema holds ≡ second_schema }
    ensures third { created second_schema ends ≡ desk_schema }
{}
