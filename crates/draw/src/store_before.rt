//! The one-thread store before the entries of a window, with which the slider of a page begins.
ghost use Rattle.std.specs.Prelude.{◌≡◌, ◌≤◌, ◌&&◌, [], IfOk, OnOk, false, length, nat_le, not, true};
ghost use Rattle.model.specs.plain_store.declared.setups.Setup.{Setup as Given};
ghost use Rattle.model.specs.{Past};
ghost use Rattle.picture.specs.{Window as Shown};
ghost use Rattle.draw.specs.Items.{marks_back};
ghost use Rattle.draw.specs.StoreChanges.{store_words as words_of};
ghost use Rattle.draw.specs.StoresBefore.{IsStoreBefore, store_before};
ghost use Rattle.draw.specs.TakenStores.{IsAfterMarks};

use crate::store_changes::store_words;
use crate::taken_store::TakenStore;
use std::alloc::{AllocError, Global};

/// The words of the store before the entries of a window, once they are known.
#[derive(Drop)]
pub(crate) struct StoreBefore {
    /// The number of the first entry of the window.
    from: u64,
    /// Whether all entries before the window are drawn, and the words are kept.
    is_kept: bool,
    words: Vec<u8>,
}

impl StoreBefore {
    /// Creates the store before a window that begins with the entry `from`, before the first entry.
    pub fn new(alloc: Global, from: u64) -> StoreBefore
        ensures from { result.from ≡ from }
        ensures kept { result.is_kept ≡ false }
        ensures words { result.words.items ≡ [] }
    {
        StoreBefore {
            from,
            is_kept: false,
            words: Vec::new(alloc),
        }
    }

    /// Keeps the words of `store`, which is the one after so many entries, if all entries before the window are among them.
    ///
    /// # Errors
    ///
    /// Returns [`AllocError`] if memory is lacking.
    #[inline(always)]
    pub fn keep(
        &mut self,
        alloc: Global,
        entries: u64,
        store: &TakenStore,
    ) -> Result<(), AllocError>
        ensures before { OnOk result ((w : Shown) (s : Given) (past : Past) →
            IsAfterMarks s (marks_back past) store.now → entries ≡ length past →
            IsStoreBefore w s past self.old → IsStoreBefore w s past self.new) }
        ensures kept { OnOk result (self.new.from ≤ entries → self.new.is_kept ≡ true) }
    {
        if !self.is_due(entries) {
            return Ok(());
        }
        self.keep_words(alloc, store)
    }

    /// Returns whether the words are not kept yet, and all entries before the window are among so many entries.
    #[inline(always)]
    fn is_due(&self, entries: u64) -> bool
        ensures { result ≡ (not self.now.is_kept && nat_le self.now.from entries) }
    {
        !self.is_kept && self.from <= entries
    }

    /// Keeps the words of a store.
    #[inline(never)]
    fn keep_words(&mut self, alloc: Global, store: &TakenStore) -> Result<(), AllocError>
        ensures from { self.new.from ≡ self.old.from }
        ensures kept { OnOk result (self.new.is_kept ≡ true) }
        ensures words { OnOk result (self.new.words.items ≡ words_of store.now.store) }
    {
        self.words = store_words(alloc, &store.store)?;
        self.is_kept = true;
        Ok(())
    }

    /// Returns the words of the store before the window, where `store` is the one after all entries.
    ///
    /// # Errors
    ///
    /// Returns [`AllocError`] if memory is lacking.
    pub fn words(&self, alloc: Global, store: &TakenStore) -> Result<Vec<u8>, AllocError>
        ensures { IfOk result (λ words. (w : Shown) (s : Given) (past : Past) →
            IsAfterMarks s (marks_back past) store.now → IsStoreBefore w s past self.now →
            words.items ≡ words_of (store_before w s past)) }
    {
        if !self.has_words() {
            return store_words(alloc, &store.store);
        }
        self.copied(alloc)
    }

    /// Returns whether the words are kept.
    fn has_words(&self) -> bool
        ensures { result ≡ self.now.is_kept }
    {
        self.is_kept
    }

    /// Returns a copy of the words that are kept.
    fn copied(&self, alloc: Global) -> Result<Vec<u8>, AllocError>
        ensures { IfOk result (λ words. words.items ≡ self.now.words.items) }
    {
        let mut words = Vec::new(alloc);
        words.extend_from_slice(self.words.as_slice())?;
        Ok(words)
    }
}
