ghost use Rattle.std.specs.Prelude.{◌≡◌, ◌↔◌, IfOk, IfSome, IsSome, IsTrue, All};
ghost use Rattle.hx_base.specs.Names.{IsName, IsNameByte};

use crate::file_word::ends_in;
use std::alloc::{AllocError, Global};
use std::marker::Model;

const LONGEST: usize = 32;

/// A catalogue's name: 1 to 32 bytes of `a` to `z`, `0` to `9` and `_`, which does not end in `_margin`. It
/// is seen as the list of its bytes.
#[derive(Drop)]
pub struct Name {
    text: String,
}

impl Model for Name {
    ghost use Rattle.std.specs.Prelude.{List, ℕ, string_bytes};
    ghost use Rattle.hx_base.specs.Names as Names;

    ghost Value = { List ℕ };

    ghost view = { λ name. string_bytes name.text };

    ghost invariant = { λ name. Names.IsName (string_bytes name.text) };
}

fn is_name_byte(byte: u8) -> bool
    ensures { IsTrue result ↔ IsNameByte byte }
{
    matches!(byte, b'a'..=b'z' | b'0'..=b'9' | b'_')
}

fn has_name_bytes(text: &str) -> bool
    ensures { IsTrue result ↔ All IsNameByte text.now }
{
    text.as_bytes().iter().all(|&byte| is_name_byte(byte))
}

/// Whether a text may be a catalogue's name: 1 to 32 letters from a to z, digits and underscores, which don't end in
/// `_margin`.
pub fn is_name(text: &str) -> bool
    ensures { IsTrue result ↔ IsName text.now }
{
    if text.is_empty() || text.len() > LONGEST {
        return false;
    }
    has_name_bytes(text) && !ends_in(text, b"_margin")
}

impl Name {
    /// The name, or None exactly where the text breaks the rule.
    pub fn new(alloc: Global, text: &str) -> Result<Option<Name>, AllocError>
        ensures rule { IfOk result (λ name. IsSome name ↔ IsName text.now) }
        ensures bytes { IfOk result (λ name. IfSome name (λ kept. kept ≡ text.now)) }
    {
        if !is_name(text) {
            return Ok(None);
        }
        let text = String::from_str(alloc, text)?;
        Ok(Some(Name { text }))
    }

    /// The same name.
    pub fn copy(&self) -> Result<Name, AllocError>
        ensures { IfOk result (λ copy. copy ≡ self.now) }
    {
        Ok(Name {
            text: self.text.clone()?,
        })
    }

    pub fn as_str(&self) -> &str
        ensures bytes { result.now ≡ self.now }
        ensures rule { IsName self.now }
    {
        self.text.as_str()
    }
}

#[cfg(test)]
mod tests {
    use super::*;
    use std::test::Fail;

    #[test]
    fn names(rt: HostRuntime) -> Result<(), Fail> {
        let cases = [
            ("a", true),
            ("gaia_dr3", true),
            ("_", true),
            ("0", true),
            ("z9", true),
            ("margin", true),
            ("t_margins", true),
            ("abcdefghijklmnopqrstuvwxyz012345", true),
            ("abcdefghijklmnopqrstuvwxyz0123456", false),
            ("", false),
            ("A", false),
            ("a-b", false),
            ("a.b", false),
            ("a b", false),
            ("a/b", false),
            ("`", false),
            ("{", false),
            (":", false),
            ("é", false),
            ("t_margin", false),
            ("_margin", false),
        ];
        for (text, is_name) in cases {
            let name = Name::new(rt.alloc(), text)?;
            assert_eq!(rt; name.is_some(), is_name, "{text:?}");
        }
        let name = Name::new(rt.alloc(), "gaia_dr3")?.ok_or("no name")?;
        assert_eq!(rt; name.as_str(), "gaia_dr3");
        Ok(())
    }
}
