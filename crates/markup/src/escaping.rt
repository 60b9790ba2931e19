//! Texts within markup.
ghost use Rattle.std.specs.Prelude.{◌≡◌, ◌++◌, ℕ, List, true, OnOk};
ghost use Rattle.std.specs.List.{list_all};
ghost use Rattle.markup.specs.Escaping.{escaped, escaped_by, is_plain, names, unescaped};

use std::alloc::AllocError;

/// Adds a text to markup, in which `&`, `<`, `>` and `"` are written by their names.
pub(crate) fn push_escaped(markup: &mut Vec<u8>, text: &[u8]) -> Result<(), AllocError>
    ensures { OnOk result (markup.new.items ≡ markup.old.items ++ escaped text.now) }
{
    for byte in text {
        push_byte(markup, *byte)?;
    }
    Ok(())
}

/// Adds a byte of a text.
#[tactic(auto, using(std::proofs::lemmas::Bool::Decides::nat_tests))]
fn push_byte(markup: &mut Vec<u8>, byte: u8) -> Result<(), AllocError>
    ensures { OnOk result (markup.new.items ≡ markup.old.items ++ escaped_by names byte) }
{
    match byte {
        b'&' => markup.extend_from_slice(b"&amp;"),
        b'<' => markup.extend_from_slice(b"&lt;"),
        b'>' => markup.extend_from_slice(b"&gt;"),
        b'"' => markup.extend_from_slice(b"&quot;"),
        _ => Ok(markup.push(byte)?),
    }
}

/// Does nothing. Its contract states that an escaped text is read back as it was, and that no byte of it ends a text
/// or the value of an attribute.
#[tactic(auto, using(crate::proofs::Escapes::text_back, crate::proofs::Escapes::text_plain))]
pub fn texts_are_read_back()
    ensures back { (text : List ℕ) → unescaped (escaped text) ≡ text }
    ensures plain { (text : List ℕ) → list_all is_plain (escaped text) ≡ true }
{}
