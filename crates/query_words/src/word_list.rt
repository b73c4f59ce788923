// The words of a text, as a list.
ghost use Rattle.std.specs.Prelude.{◌≡◌, ℕ, List as Items};

use crate::list::List;
use crate::text::Text;
use crate::twin::Twin;
use std::alloc::AllocError as NoMemory;
use std::marker::Model;

/// Words in the order of their text. Contracts see them as a list of byte lists.
#[derive(Debug, Drop)]
pub struct Words {
    words: List<Text>,
}

impl Model for Words {
    ghost Value = { Items (Items ℕ) };

    ghost view = { λ w. w.words };
}

impl Words {
    /// The words, in order.
    pub fn as_slice(&self) -> &[Text]
        ensures { result.now ≡ self.now }
    {
        self.words.as_slice()
    }

    /// These texts as words.
    pub(crate) fn from_list(words: List<Text>) -> Self
        ensures { result ≡ words }
    {
        Words { words }
    }
}

impl Twin for Words {
    fn twin(&self) -> Result<Self, NoMemory> {
        Ok(Words {
            words: self.words.twin()?,
        })
    }
}
