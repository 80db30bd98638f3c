//! Command-line arguments.

ghost use Rattle.std.specs.Prelude.{◌≡◌, ℕ, List, [], ◌∷◌, ◌++◌, map, OnOk, OnErr, string_bytes};

use std::alloc::{AllocError, Global};
use std::marker::Model;

/// Command-line arguments, as owned strings. Contracts see a list of arguments, each as a list of
/// bytes.
#[derive(Drop)]
pub struct Words {
    alloc: Global,
    words: Vec<String>,
}

impl Model for Words {
    ghost Value = { List (List ℕ) };

    ghost view = { λ w. map string_bytes w.words.items };
}

impl Words {
    /// Returns an empty list. Does not allocate.
    pub fn new(alloc: Global) -> Self
        ensures { result ≡ [] }
    {
        Words {
            alloc,
            words: Vec::new(alloc),
        }
    }

    /// Appends an argument. Fails only if an allocation fails, and then leaves the list unchanged.
    pub fn push(&mut self, word: &str) -> Result<(), AllocError>
        ensures ok { OnOk result (self.new ≡ self.old ++ word.now ∷ []) }
        ensures err { OnErr result (self.new ≡ self.old) }
    {
        let text = String::from_str(self.alloc, word)?;
        self.words.push(text)?;
        Ok(())
    }

    // Returns the arguments as strings.
    pub(crate) fn texts(&self) -> &[String]
        ensures { map string_bytes result.now ≡ self.now }
    {
        &self.words
    }
}
