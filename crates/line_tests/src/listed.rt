//! Lists of words, each of which tells an item.

use fact_wasm::{Seq, Text};
use std::alloc::{AllocError, Global};

/// What a word of a list tells.
pub trait Listed: Sized + Drop {
    /// What a word tells, if it tells one.
    fn of_word(alloc: Global, word: &str) -> Result<Option<Self>, AllocError>;
}

/// A name.
impl Listed for Text {
    fn of_word(alloc: Global, word: &str) -> Result<Option<Text>, AllocError> {
        Ok(Some(Text::from_str(alloc, word)?))
    }
}

/// An item behind its name and `=`.
impl<T: Listed> Listed for (Text, T) {
    fn of_word(alloc: Global, word: &str) -> Result<Option<(Text, T)>, AllocError> {
        let (name, word) = word.split_once("=").unwrap_or((word, ""));
        let Some(item) = T::of_word(alloc, word)? else {
            return Ok(None);
        };
        Ok(Some((Text::from_str(alloc, name)?, item)))
    }
}

/// What words tell; those that tell nothing are passed over.
pub fn list_of<T: Listed>(alloc: Global, words: &str) -> Result<Seq<T>, AllocError> {
    let mut items = Seq::new(alloc);
    for word in words.split_whitespace() {
        if let Some(item) = T::of_word(alloc, word)? {
            items.push(item)?;
        }
    }
    Ok(items)
}
