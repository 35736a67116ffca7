ghost use Rattle.std.specs.Prelude.{◌≡◌, ◌↔◌, ℕ, false, All, IsTrue};
ghost use Rattle.block_sparse.specs.StoredBlocks.{block_at, flag_of};
ghost use Rattle.block_sparse.specs.Flags.{HasNoFlags};

use crate::blocks::Blocks;

impl Blocks {
    /// Whether no block has its flag set. Takes one search for each block, and no memory.
    pub fn has_no_flags(&self) -> bool
        ensures { IsTrue result ↔ HasNoFlags self.now }
    {
        self.columns_have_no_flags(self.live())
    }

    /// Whether no block that comes from one of these cells has its flag set.
    fn columns_have_no_flags(&self, from: &[(u32, u8, u8)]) -> bool
        ensures { IsTrue result ↔ All (λ l. (t : ℕ) → flag_of (block_at self.now l.0 t) ≡ false) from.now }
    {
        from.iter().all(|l| self.column_has_no_flags(l.0))
    }

    /// Whether no block that comes from `s` has its flag set.
    fn column_has_no_flags(&self, s: u32) -> bool
        ensures { IsTrue result ↔ ((t : ℕ) → flag_of (block_at self.now s t) ≡ false) }
    {
        self.blocks_have_no_flags(s, self.column(s))
    }

    /// Whether no block from `s` to one of these cells has its flag set.
    fn blocks_have_no_flags(&self, s: u32, to: &[u32]) -> bool
        ensures { IsTrue result ↔ All (λ t. flag_of (block_at self.now s t) ≡ false) to.now }
    {
        to.iter().all(|t| !self.has_flag(s, *t))
    }
}
