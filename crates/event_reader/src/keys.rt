ghost use Rattle.std.specs.Prelude.{◌≡◌, ◌^◌, ◌<◌, ◌≤◌, All, length, map, take};
ghost use Rattle.std.specs.List.{list_any};
ghost use Rattle.morph_base.specs.Operations.{same_key};
ghost use Rattle.event_reader.specs.Keys.{key_of, are_distinct};

use morph_base::Key;

/// The key of an id in a table.
pub fn key_of(table: u8, id: u64) -> Key
    requires { id < 2 ^ 32 }
    ensures { result ≡ key_of table id }
{
    Key {
        table,
        id: id as u32,
    }
}

/// The keys of at most `N` ids in a table. The places behind them have the key of id 0.
pub fn keys_of<const N: usize>(table: u8, ids: &[u64]) -> [Key; N]
    requires few { length ids.now ≤ N }
    requires small { All (λ id. id < 2 ^ 32) ids.now }
    ensures { take (length ids.now) result ≡ map (key_of table) ids.now }
{
    let mut keys = [key_of(table, 0); N];
    for i in 0..ids.len() {
        keys[i] = key_of(table, ids[i]);
    }
    keys
}

/// Whether one of the keys is this one.
pub fn has_key(keys: &[Key], key: Key) -> bool
    ensures { result ≡ list_any (same_key key) keys.now }
{
    keys.iter().any(|other| key == *other)
}

/// Whether no two of the keys are the same. It compares each key with all behind it, so it is meant for the few keys of
/// a line.
pub fn are_distinct(keys: &[Key]) -> bool
    ensures { result ≡ are_distinct keys.now }
{
    for (i, key) in keys.iter().enumerate() {
        if has_key(&keys[i + 1..], *key) {
            return false;
        }
    }
    true
}
