ghost use Rattle.std.specs.Prelude.{◌≡◌, ◌↔◌, IsTrue};
ghost use Rattle.morph_base.specs.Operations.{InLayout};

/// A place where a value is kept: an id in a table. Keys are ordered by table, then by id.
#[derive(Clone, Copy, Debug, PartialEq, Eq, PartialOrd, Ord, Hash)]
pub struct Key {
    /// The number of its table, from 0 on.
    pub table: u8,
    /// Its number in the table, from 0 on.
    pub id: u32,
}

impl Key {
    /// The place of an id in a table.
    pub fn of(table: u8, id: u32) -> Self
        ensures { result ≡ record { table = table; id = id } }
    {
        Key { table, id }
    }
}

/// Which keys there are: tables numbered from 0 and below `tables`, each with ids from 0 and below `size`.
#[derive(Clone, Copy, Debug, PartialEq, Eq)]
pub struct Layout {
    /// How many tables there are.
    pub tables: u8,
    /// How many ids each table has.
    pub size: u32,
}

impl Layout {
    /// Whether the layout has the key.
    pub fn contains(self, key: Key) -> bool
        ensures { IsTrue result ↔ InLayout self key }
    {
        key.table < self.tables && key.id < self.size
    }
}
