//! Schema 3: the tables of a desk's store as `sqlite` has them, and whether a store has exactly
//! these, or exactly those of an earlier schema. It knows no row and no customer.
#![tactic(auto)]

ghost use Rattle.std.specs.Prelude.{◌≡◌, ◌↔◌, map, IsTrue};
ghost use Rattle.hq_schema.specs.Schema.{no_schema, version_alone, first_schema, desk_schema};
ghost use Rattle.hq_schema.specs.Schema.{second_schema};
ghost use Rattle.hq_schema.specs.Shapes.{table_of, index_of};

mod desk;
pub mod laws;
mod shape;

use crate::desk::{INDEXES, TABLES, VERSION};
use crate::shape::{IndexShape, TableShape};
use sqlite_schema::schema::{Index, Schema, Table};

/// Whether the schema has no table, no index and no view: nothing was made in its store yet.
pub fn is_blank(schema: &Schema) -> bool
    ensures { IsTrue result ↔ (schema.now ≡ no_schema) }
{
    schema.tables.is_empty() && schema.indexes.is_empty() && schema.views.is_empty()
}

/// Whether the schema has the table of the version, and nothing beside it. A store with this schema
/// and no row lacks the other tables of a desk.
pub fn is_version_alone(schema: &Schema) -> bool
    ensures { IsTrue result ↔ (schema.now ≡ version_alone) }
{
    schema.views.is_empty()
        && schema.indexes.is_empty()
        && are_tables(schema.tables.as_slice(), &[VERSION])
}

/// Whether the schema is a desk's: each table and each index is there as schema 3 has it, at its
/// tree, and nothing beside them. A table more, a column that may be NULL, or the same tables made
/// in another order are no desk's.
pub fn is_desk(schema: &Schema) -> bool
    ensures { IsTrue result ↔ (schema.now ≡ desk_schema) }
{
    schema.views.is_empty()
        && are_tables(schema.tables.as_slice(), &TABLES)
        && are_indexes(schema.indexes.as_slice(), &INDEXES)
}

/// Whether the schema is that of a desk of version 2: schema 3 without the table of ends and the
/// index of its key.
pub fn is_second_desk(schema: &Schema) -> bool
    ensures { IsTrue result ↔ (schema.now ≡ second_schema) }
{
    schema.views.is_empty()
        && are_tables(schema.tables.as_slice(), &TABLES[..8])
        && are_indexes(schema.indexes.as_slice(), &INDEXES[..8])
}

/// Whether the schema is that of a desk of version 1: schema 2 without the table of holds and the
/// index of its key.
pub fn is_first_desk(schema: &Schema) -> bool
    ensures { IsTrue result ↔ (schema.now ≡ first_schema) }
{
    schema.views.is_empty()
        && are_tables(schema.tables.as_slice(), &TABLES[..7])
        && are_indexes(schema.indexes.as_slice(), &INDEXES[..7])
}

fn are_tables(tables: &[Table], shapes: &[TableShape]) -> bool
    ensures { IsTrue result ↔ (tables.now ≡ map table_of shapes.now) }
{
    tables.len() == shapes.len()
        && tables
            .iter()
            .zip(shapes)
            .all(|(table, shape)| shape.fits(table))
}

fn are_indexes(indexes: &[Index], shapes: &[IndexShape]) -> bool
    ensures { IsTrue result ↔ (indexes.now ≡ map index_of shapes.now) }
{
    indexes.len() == shapes.len()
        && indexes
            .iter()
            .zip(shapes)
            .all(|(index, shape)| shape.fits(index))
}
