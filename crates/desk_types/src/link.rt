//! A link of a line, held without memory of its own.

ghost use Rattle.std.specs.Prelude.{◌≡◌, ◌↔◌, IsTrue, IsSome, IfSome};
ghost use Rattle.desk_types.specs.Fields.{is_link};

use crate::fields::is_link;
use crate::limits::LINK_BYTES_MAX;
use arrayvec::ArrayString;
use query_words::{NoMemory, Twin};
use std::marker::Model;

/// A link: 1 to 512 visible ASCII bytes that begin with `http://` or `https://`. It takes no memory.
/// Contracts see it as its bytes.
#[derive(Debug, Drop)]
pub struct LinkText {
    text: ArrayString<LINK_BYTES_MAX>,
}

impl Model for LinkText {
    ghost use Rattle.std.specs.Prelude.{ℕ, List, IsTrue};
    ghost use Rattle.desk_types.specs.Fields.{is_link};

    ghost Value = { List ℕ };

    ghost view = { λ l. l.text.bytes };

    ghost invariant = { λ l. IsTrue (is_link l.text.bytes) };
}

impl LinkText {
    /// The link of a text, or `None` where the text is no link.
    pub fn read(text: &str) -> Option<LinkText>
        ensures is_one { IsSome result ↔ IsTrue (is_link text.now) }
        ensures text { IfSome result (λ link. link ≡ text.now) }
    {
        if !is_link(text) {
            return None;
        }
        let text = ArrayString::from(text).ok()?;
        Some(LinkText { text })
    }

    /// The text of the link.
    pub fn as_str(&self) -> &str
        ensures text { result.now ≡ self.now }
        ensures link { IsTrue (is_link result.now) }
    {
        self.text.as_str()
    }

    /// An equal link. It takes no memory.
    pub fn copy(&self) -> LinkText
        ensures { result ≡ self.now }
    {
        LinkText { text: self.text }
    }
}

impl Twin for LinkText {
    fn twin(&self) -> Result<Self, NoMemory> {
        Ok(self.copy())
    }
}
