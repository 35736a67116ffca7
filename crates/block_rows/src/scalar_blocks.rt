ghost use Rattle.std.specs.Prelude.{◌≡◌, ◌<◌, IfOk};
ghost use Rattle.block_rows.specs.BlockRows.{scalar_block};

use dense_blocks::Block;
use std::alloc::{AllocError as NoMemory, Global};
use std::marker::Model;

/// The blocks of one entry, one for each entry, so that they can be lent.
#[derive(Debug, Drop)]
pub struct ScalarBlocks {
    blocks: Vec<Block>,
}

impl Model for ScalarBlocks {
    ghost use Rattle.std.specs.Prelude.{List};
    ghost use Rattle.dense_blocks.specs.declared.block.Block.{Block};
    ghost use Rattle.block_rows.specs.BlockRows.{AreScalarBlocks};

    ghost Value = { List Block };

    ghost view = { λ s. s.blocks.items };

    ghost invariant = { λ s. AreScalarBlocks s.blocks.items 256 };
}

impl ScalarBlocks {
    /// The block of each of the 256 entries.
    pub fn all(alloc: Global) -> Result<ScalarBlocks, NoMemory> {
        let mut blocks = Vec::with_capacity(alloc, 256)?;
        for entry in 0..256u32 {
            blocks.push(scalar_block(alloc, entry as u8)?)?;
        }
        Ok(ScalarBlocks { blocks })
    }

    /// The block of this entry.
    pub fn block(&self, entry: u8) -> &Block
        ensures { result.now ≡ scalar_block entry }
    {
        &self.blocks[entry as usize]
    }
}

/// The block of this entry.
fn scalar_block(alloc: Global, entry: u8) -> Result<Block, NoMemory>
    ensures { IfOk result (λ b. b ≡ scalar_block entry) }
{
    let block = Block::of(alloc, 1, 1, &[entry])?;
    Ok(block)
}
