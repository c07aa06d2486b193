//! What groups of blocks count, so that a search passes many blocks at a step.
ghost use Rattle.std.specs.Prelude.{◌≡◌, ◌≤◌, ℕ, List, length, set};
ghost use Rattle.std.specs.List.{concat};
ghost use Rattle.lsp_buffer.specs.Blocks.{AreBlocks, AreGroups, IsTextBuffer, counts_of};
ghost use Rattle.lsp_buffer.specs.inside.Cuts.{AreFull};

use crate::block::Block;
use crate::counts::Counts;

/// How many blocks are in a group.
pub const GROUP: usize = 32;

/// Returns what some blocks count together.
fn total(blocks: &[Block]) -> Counts
    requires full { AreFull blocks.now }
    requires size { length (concat blocks.now) ≤ 2147483648 }
    ensures { result ≡ counts_of (concat blocks.now) }
{
    let mut counts = Counts::none();
    for block in blocks {
        counts = counts.plus(block.counts());
    }
    counts
}

/// Appends the groups that are missing, of blocks that come before the last. Where memory runs out
/// they stay missing: then a search takes longer, and finds the same.
pub fn fill(groups: &mut Vec<Counts>, blocks: &[Block])
    requires { IsTextBuffer blocks.now groups.old.items }
    ensures { IsTextBuffer blocks.now groups.new.items }
{
    for group in groups.len()..(blocks.len() - 1) / GROUP {
        let first = GROUP * group;
        let counts = total(&blocks[first..first + GROUP]);
        if groups.push(counts).is_err() {
            return;
        }
    }
}

/// Counts the group of the block with this index again, after a change of the block.
pub fn recount(groups: &mut [Counts], blocks: &[Block], index: usize)
    requires are { AreBlocks blocks.now }
    requires size { length (concat blocks.now) ≤ 2147483648 }
    requires other { (block : List ℕ) × AreGroups (set blocks.now index block) groups.old }
    ensures { AreGroups blocks.now groups.new }
{
    let group = index / GROUP;
    if group < groups.len() {
        let first = GROUP * group;
        let counts = total(&blocks[first..first + GROUP]);
        groups[group] = counts;
    }
}
