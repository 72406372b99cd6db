ghost use Rattle.std.specs.Prelude.{◌≡◌, ◌↔◌, IfOk, IfSome, IsSome, IsTrue, All};
ghost use Rattle.hx_base.specs.FileWords.{EndsIn, IsFileWord, IsPlain, IsCsvName, IsParquetName};

use std::alloc::{AllocError, Global};
use std::marker::Model;

const LONGEST: usize = 255;

/// A word of the command line that names an input: 1 to 255 bytes, none a control character, which does
/// not begin with `-` and ends in `.csv` or `.parquet`. It is seen as the list of its bytes.
#[derive(Drop)]
pub struct FileWord {
    text: String,
}

impl Model for FileWord {
    ghost use Rattle.std.specs.Prelude.{List, ℕ, string_bytes};
    ghost use Rattle.hx_base.specs.FileWords as Words;

    ghost Value = { List ℕ };

    ghost view = { λ word. string_bytes word.text };

    ghost invariant = { λ word. Words.IsFileWord (string_bytes word.text) };
}

fn is_plain(byte: u8) -> bool
    ensures { IsTrue result ↔ IsPlain byte }
{
    byte >= 0x20 && byte != 0x7F
}

/// Whether a text ends in some bytes.
pub(crate) fn ends_in(name: &str, suffix: &[u8]) -> bool
    ensures { IsTrue result ↔ EndsIn suffix.now name.now }
{
    name.as_bytes().ends_with(suffix)
}

/// Whether a name ends in `.csv`.
pub fn is_csv_name(name: &str) -> bool
    ensures { IsTrue result ↔ IsCsvName name.now }
{
    ends_in(name, b".csv")
}

/// Whether a name ends in `.parquet`.
pub fn is_parquet_name(name: &str) -> bool
    ensures { IsTrue result ↔ IsParquetName name.now }
{
    ends_in(name, b".parquet")
}

fn is_plain_text(name: &str) -> bool
    ensures { IsTrue result ↔ All IsPlain name.now }
{
    name.as_bytes().iter().all(|&byte| is_plain(byte))
}

/// Whether a word may name an input.
pub fn is_file_word(word: &str) -> bool
    ensures { IsTrue result ↔ IsFileWord word.now }
{
    let bytes = word.as_bytes();
    if bytes.is_empty() || bytes.len() > LONGEST {
        return false;
    }
    bytes[0] != b'-' && is_plain_text(word) && (is_csv_name(word) || is_parquet_name(word))
}

impl FileWord {
    /// The word, or None exactly where it breaks the rule.
    pub fn new(alloc: Global, text: &str) -> Result<Option<FileWord>, AllocError>
        ensures rule { IfOk result (λ word. IsSome word ↔ IsFileWord text.now) }
        ensures bytes { IfOk result (λ word. IfSome word (λ kept. kept ≡ text.now)) }
    {
        if !is_file_word(text) {
            return Ok(None);
        }
        let text = String::from_str(alloc, text)?;
        Ok(Some(FileWord { text }))
    }

    pub fn as_str(&self) -> &str
        ensures bytes { result.now ≡ self.now }
        ensures rule { IsFileWord self.now }
    {
        self.text.as_str()
    }
}

#[cfg(test)]
mod tests {
    use super::*;
    use std::test::Fail;

    #[test]
    fn file_words(rt: HostRuntime) -> Result<(), Fail> {
        let cases = [
            ("a.csv", true),
            (".csv", true),
            ("dir/a b.csv", true),
            ("é.parquet", true),
            ("", false),
            ("-.csv", false),
            ("a.txt", false),
            ("a.CSV", false),
            ("a\t.csv", false),
            ("a\x7F.csv", false),
        ];
        for (text, is_word) in cases {
            let word = FileWord::new(rt.alloc(), text)?;
            assert_eq!(rt; word.is_some(), is_word, "{text:?}");
        }
        let word = FileWord::new(rt.alloc(), "a.csv")?.ok_or("no word")?;
        assert_eq!(rt; word.as_str(), "a.csv");
        Ok(())
    }

    #[test]
    fn longest_file_word(rt: HostRuntime) -> Result<(), Fail> {
        let mut text = String::new(rt.alloc());
        for _ in 0..251 {
            text.push('a')?;
        }
        text.push_str(".csv")?;
        assert!(rt; FileWord::new(rt.alloc(), text.as_str())?.is_some());
        text.push_str(".csv")?;
        assert!(rt; FileWord::new(rt.alloc(), text.as_str())?.is_none());
        Ok(())
    }
}
