ghost use Rattle.std.specs.Prelude.{◌≡◌, ◌↔◌, [], map, IsTrue, false, None};
ghost use Rattle.sqlite_value.specs.Keys.{plain};
ghost use Rattle.hq_schema.specs.Schema.{column};
ghost use Rattle.hq_schema.specs.Shapes.{table_of, index_of};

use sqlite_items::Items;
use sqlite_schema::schema::{Column, Index, Kind, Table};
use sqlite_value::keys::{Collation, Order};
use sqlite_value::value::Value;

/// A table as a desk has it: columns that are STRICT and never NULL, and no rules but keys.
pub(crate) struct TableShape {
    pub(crate) name: &'static str,
    pub(crate) tree: u32,
    pub(crate) columns: &'static [(&'static str, Kind)],
    /// The places of the primary key's columns, which count from 1.
    pub(crate) primary: &'static [usize],
    /// The places of each key that has an index, the primary key's first.
    pub(crate) uniques: &'static [&'static [usize]],
}

/// An index that `sqlite` makes for a key.
pub(crate) struct IndexShape {
    pub(crate) name: &'static str,
    pub(crate) tree: u32,
    /// The tree of its table.
    pub(crate) table: u32,
    pub(crate) places: &'static [usize],
}

impl TableShape {
    /// Whether the table is of this shape, and has no rule beside.
    #[tactic(auto, using(crate::proofs::Shapes::table_is))]
    pub(crate) fn fits(&self, table: &Table) -> bool
        ensures { IsTrue result ↔ (table.now ≡ table_of self.now) }
    {
        is_bare(table) && self.has_columns_of(table) && self.has_keys_of(table)
    }

    /// Whether the table has this name, this tree and these columns.
    fn has_columns_of(&self, table: &Table) -> bool
        ensures { IsTrue result ↔ ((table.now.name ≡ self.now.name.now)
            × (table.now.tree ≡ self.now.tree)
            × (table.now.columns ≡ map (λ c. column c.0.now c.1) self.now.columns.now)) }
    {
        table.name.as_slice() == self.name.as_bytes()
            && table.tree == self.tree
            && are_columns(table.columns.as_slice(), self.columns)
    }

    /// Whether the table has these keys, each in ascending order.
    fn has_keys_of(&self, table: &Table) -> bool
        ensures { IsTrue result ↔ ((table.now.primary ≡ self.now.primary.now)
            × (table.now.uniques ≡ map (λ places. places.now) self.now.uniques.now)
            × (table.now.orders ≡ map (λ _. plain) table.now.uniques)) }
    {
        are_places(table.primary.as_slice(), self.primary)
            && are_keys(table.uniques.as_slice(), self.uniques)
            && are_plain(table.orders.as_slice(), table.uniques.as_slice())
    }
}

impl IndexShape {
    /// Whether the index is of this shape.
    pub(crate) fn fits(&self, index: &Index) -> bool
        ensures { IsTrue result ↔ (index.now ≡ index_of self.now) }
    {
        index.name.as_slice() == self.name.as_bytes()
            && index.tree == self.tree
            && index.table == self.table
            && are_places(index.columns.as_slice(), self.places)
            && index.order.digits == 0
            && index.is_unique
    }
}

/// Whether the table has no rule but its columns and keys: no INTEGER PRIMARY KEY, no CHECK, no
/// reference, no default and no AUTOINCREMENT.
fn is_bare(table: &Table) -> bool
    ensures { IsTrue result ↔ ((table.now.key ≡ None) × (table.now.checks ≡ [])
        × (table.now.references ≡ []) × (table.now.computed ≡ [])
        × (table.now.stamps ≡ record { places = []; terms = []; formats = [] })
        × (table.now.is_counted ≡ false)) }
{
    table.key.is_none()
        && table.checks.roots.is_empty()
        && table.references.is_empty()
        && table.computed.is_empty()
        && table.stamps.places.is_empty()
        && table.stamps.terms.roots.is_empty()
        && table.stamps.formats.is_empty()
        && !table.is_counted
}

/// Whether the column has this name, takes values of this kind alone, and is never NULL.
fn is_column(found: &Column, name: &str, kind: Kind) -> bool
    ensures { IsTrue result ↔ (found.now ≡ column name.now kind) }
{
    found.name.as_slice() == name.as_bytes()
        && found.kind == kind
        && found.is_strict
        && found.not_null
        && matches!(found.default, Value::Null)
        && found.collation == Collation::Binary
}

fn are_columns(columns: &[Column], wanted: &[(&str, Kind)]) -> bool
    ensures { IsTrue result ↔ (columns.now ≡ map (λ w. column w.0.now w.1) wanted.now) }
{
    columns.len() == wanted.len()
        && columns
            .iter()
            .zip(wanted)
            .all(|(column, (name, kind))| is_column(column, name, *kind))
}

fn are_places(places: &[usize], wanted: &[usize]) -> bool
    ensures { IsTrue result ↔ (places.now ≡ wanted.now) }
{
    places == wanted
}

fn are_keys(keys: &[Items<usize>], wanted: &[&[usize]]) -> bool
    ensures { IsTrue result ↔ (keys.now ≡ map (λ places. places.now) wanted.now) }
{
    keys.len() == wanted.len()
        && keys
            .iter()
            .zip(wanted)
            .all(|(key, places)| are_places(key.as_slice(), places))
}

/// Whether there is an ascending order for each key, and none beside.
fn are_plain(orders: &[Order], keys: &[Items<usize>]) -> bool
    ensures { IsTrue result ↔ (orders.now ≡ map (λ _. plain) keys.now) }
{
    orders.len() == keys.len() && orders.iter().zip(keys).all(|(order, _)| order.digits == 0)
}
