//! The layout: the index of each word in the table.
ghost use Rattle.std.specs.Prelude.{◌≡◌, ◌<◌, ◌≤◌};
ghost use Rattle.words_core.specs.theorem.Layout.{board_word, flag_word, word_count, IsBoardWord};
ghost use Rattle.words_core.specs.theorem.Words.{sizes_of};

use crate::words::{LINE_WORDS, Words};
use point_core::{Context, Usage};

impl Words {
    // The index of an entry of the board.
    pub(crate) fn entry_place(&self, buffer: usize, ctx: Context, usage: Usage) -> usize
        requires buffer { buffer < self.now.buffers }
        requires context { ctx ≤ self.now.contexts }
        ensures value { result ≡ board_word self.now buffer ctx usage }
        ensures entry { IsBoardWord (sizes_of self.now) result }
    {
        self.entry_place_of(self.sizes.contexts, buffer, ctx, usage)
    }

    // The index of an entry of the board, by the number of contexts.
    pub(crate) fn entry_place_of(
        &self,
        contexts: usize,
        buffer: usize,
        ctx: Context,
        usage: Usage,
    ) -> usize
        requires contexts { contexts ≡ self.now.contexts }
        requires buffer { buffer < self.now.buffers }
        requires context { ctx ≤ self.now.contexts }
        ensures value { result ≡ board_word self.now buffer ctx usage }
        ensures entry { IsBoardWord (sizes_of self.now) result }
    {
        // Opens the invariant.
        let _sizes = &self.sizes;
        let line = buffer * contexts + ctx.index();
        LINE_WORDS * line + 1 + usize::from(usage.number())
    }

    // The index of a flag.
    pub(crate) fn flag_place(&self, flag: usize) -> usize
        requires flag { flag < self.now.flags }
        ensures value { result ≡ flag_word self.now flag }
        ensures inside { result < word_count (sizes_of self.now) }
    {
        let lines = self.sizes.buffers.max(1) * self.sizes.contexts;
        LINE_WORDS * lines + flag
    }
}
