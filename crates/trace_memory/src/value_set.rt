//! Sets of values below 256.
ghost use Rattle.std.specs.Prelude.{◌≡◌};
ghost use Rattle.trace_memory.specs.Sets.{has_value, no_values, with_value};

/// A set of values below 256: a bit for each.
#[derive(Clone, Copy)]
pub struct ValueSet {
    pub words: [u64; 4],
}

impl ValueSet {
    /// Returns the set with no value.
    pub(crate) fn none() -> ValueSet
        ensures { result ≡ no_values }
    {
        ValueSet { words: [0; 4] }
    }

    /// Adds a value below 256; a greater one changes nothing.
    pub(crate) fn insert(&mut self, value: u32)
        ensures { self.new ≡ with_value value self.old }
    {
        let index = (value / 64) as usize;
        if index < self.words.len() {
            self.words[index] |= 1 << (value % 64);
        }
    }

    /// Returns whether the set has a value.
    pub fn has(&self, value: u32) -> bool
        ensures { result ≡ has_value self.now value }
    {
        match self.words.get((value / 64) as usize) {
            Some(word) => word >> (value % 64) & 1 == 1,
            None => false,
        }
    }
}
