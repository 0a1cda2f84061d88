use std::alloc::Global;
use std::fmt::Write;

/// Words for numbers in order, of which each that differs from the one before it is told, behind its number.
#[derive(Drop)]
pub struct Runs {
    told: String,
    last: String,
}

impl Runs {
    pub fn new(alloc: Global) -> Runs {
        Runs {
            told: String::new(alloc),
            last: String::new(alloc),
        }
    }

    /// The word of the next number.
    pub fn take(&mut self, number: usize, word: String) -> Option<()> {
        if word != self.last {
            if !self.told.is_empty() {
                self.told.push(' ').ok()?;
            }
            write!(self.told, "{number} {word}").ok()?;
            self.last = word;
        }
        Some(())
    }

    /// All that was told.
    pub fn finish(self) -> String {
        self.told
    }
}
