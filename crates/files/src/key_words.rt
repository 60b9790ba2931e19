//! Key words, in tables that grammars read.
ghost use Rattle.std.specs.Prelude.{◌≡◌, option_map};
ghost use Rattle.std.specs.Map.{lookup};
ghost use Rattle.std.specs.Str.{bytes_eq};
ghost use Rattle.files.specs.KeyWords.{row_of, rows_of};

/// Returns the meaning of a word by a table of key words, in which each word appears once.
pub fn meaning_of<M: Copy>(table: &[(&'static str, M)], word: &[u8]) -> Option<M>
    ensures { result ≡ lookup (bytes_eq word.now) (rows_of table.now) }
{
    match row_of(table, word) {
        Some(row) => Some(row.1),
        None => None,
    }
}

/// Returns the first row of a table that has this word.
fn row_of<'a, M>(table: &'a [(&'static str, M)], word: &[u8]) -> Option<&'a (&'static str, M)>
    ensures { option_map (λ row. row.now) result ≡ row_of word.now table.now }
{
    table.iter().find(|row| word == row.0.as_bytes())
}
