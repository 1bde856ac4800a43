//! The key and the value of an entry, if there is one.
ghost use Rattle.std.specs.Prelude.{option_map, ◌≡◌};

// Returns the key of an entry, if there is one.
pub(crate) fn key_of<K: Copy, V: Copy>(entry: Option<(K, V)>) -> Option<K>
    ensures { result ≡ option_map (λ e. e.0) entry }
{
    match entry {
        Some(entry) => Some(entry.0),
        None => None,
    }
}

// Returns the value of an entry, if there is one.
pub(crate) fn value_of<K: Copy, V: Copy>(entry: Option<(K, V)>) -> Option<V>
    ensures { result ≡ option_map (λ e. e.1) entry }
{
    match entry {
        Some(entry) => Some(entry.1),
        None => None,
    }
}
