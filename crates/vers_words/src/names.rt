//! Tables of names.
ghost use Rattle.std.specs.Prelude.{◌≡◌, map, find, bytes_eq, option_map};
ghost use Rattle.vers_words.specs.Names.{named as named_in};

// Returns the entry of a table with that name.
fn entry_of<'a, N>(table: &'a [(&'static [u8], N)], word: &[u8]) -> Option<&'a (&'static [u8], N)>
    ensures { option_map (λ entry. entry.now) result
        ≡ find (λ entry. bytes_eq entry.0.now word.now) table.now }
{
    table.iter().find(|entry| entry.0 == word)
}

/// Returns what a word names in a table of names and their meanings. `None` if it names nothing; the first of
/// two equal names counts.
pub fn named<N: Copy>(table: &[(&'static [u8], N)], word: &[u8]) -> Option<N>
    ensures { result ≡ named_in (map (λ entry. (entry.0.now, entry.1)) table.now) word.now }
{
    let (_, name) = entry_of(table, word)?;
    Some(*name)
}
