//! Blocks, each of which is full before the next one has a number: what a number that comes or goes does to them.
ghost use Rattle.std.specs.Prelude.{◌≡◌, ℕ, ◌+◌, ◌-◌, ◌*◌, ◌/◌, ◌≤◌, ◌<◌, ◌++◌, ◌∷◌, [], length, slice_index_or, slice_set, drop, take, OnOk, OnErr};
ghost use Rattle.std.specs.List.{concat, insert, remove};
ghost use Rattle.lv_places.specs.Blocks.{ArePacked, LackOne, HaveOneMore, block_at};

use crate::block::Block;
use lv_values::NoMemory;
use std::alloc::Global;

/// Makes one block more.
fn add_block<const SIZE: usize>(
    alloc: Global,
    blocks: &mut Vec<Block<SIZE>>,
) -> Result<(), NoMemory>
    ensures added { OnOk result (blocks.new.items ≡ blocks.old.items ++ [] ∷ []) }
    ensures refused { OnErr result (blocks.new.items ≡ blocks.old.items) }
{
    let block = Block::new(alloc)?;
    blocks.push(block)?;
    Ok(())
}

/// Makes so many blocks in all.
pub(crate) fn add_blocks<const SIZE: usize>(
    alloc: Global,
    count: usize,
    blocks: &mut Vec<Block<SIZE>>,
) -> Result<(), NoMemory>
    ensures same { concat blocks.new.items ≡ concat blocks.old.items }
    ensures packed { (n : ℕ) → ArePacked SIZE n blocks.old.items → ArePacked SIZE n blocks.new.items }
    ensures count { OnOk result (count ≤ length blocks.new.items) }
    ensures kept { length blocks.old.items ≤ length blocks.new.items }
    ensures most { (m : ℕ) → length blocks.old.items ≤ m → count ≤ m → length blocks.new.items ≤ m }
{
    for _ in blocks.len()..count {
        add_block(alloc, blocks)?;
    }
    Ok(())
}

/// The block with a number.
fn block_in<const SIZE: usize>(blocks: &[Block<SIZE>], block: usize) -> &Block<SIZE>
    requires { block < length blocks.now }
    ensures { result.now ≡ block_at blocks.now block }
{
    &blocks[block]
}

/// The number at a place.
pub(crate) fn number_at<const SIZE: usize>(len: usize, blocks: &[Block<SIZE>], at: usize) -> u32
    requires size { 0 < SIZE }
    requires packed { ArePacked SIZE len blocks.now }
    requires place { at < len }
    ensures { result ≡ slice_index_or (concat blocks.now) at result }
{
    block_in(blocks, at / SIZE).at(at % SIZE)
}

/// The numbers that lie side by side from a place on.
pub(crate) fn run_at<const SIZE: usize>(len: usize, blocks: &[Block<SIZE>], at: usize) -> &[u32]
    requires size { 0 < SIZE }
    requires packed { ArePacked SIZE len blocks.now }
    requires place { at < len }
    ensures some { 0 < length result.now }
    ensures run { result.now ≡ take (length result.now) (drop at (concat blocks.now)) }
{
    block_in(blocks, at / SIZE).run(at % SIZE)
}

/// Puts a number into a block.
fn insert_in<const SIZE: usize>(blocks: &mut Vec<Block<SIZE>>, block: usize, at: usize, number: u32)
    requires block { block < length blocks.old.items }
    requires place { at ≤ length (block_at blocks.old.items block) }
    requires room { length (block_at blocks.old.items block) ≤ SIZE }
    ensures { blocks.new.items ≡ slice_set blocks.old.items block (insert (block_at blocks.old.items block) at number) }
{
    blocks[block].insert(at, number);
}

/// Takes a number out of a block.
fn remove_in<const SIZE: usize>(blocks: &mut Vec<Block<SIZE>>, block: usize, at: usize)
    requires block { block < length blocks.old.items }
    requires place { at < length (block_at blocks.old.items block) }
    ensures { blocks.new.items ≡ slice_set blocks.old.items block (remove (block_at blocks.old.items block) at) }
{
    blocks[block].remove(at);
}

/// Puts a number in a block in the place of another one.
fn set_in<const SIZE: usize>(blocks: &mut Vec<Block<SIZE>>, block: usize, at: usize, number: u32)
    requires block { block < length blocks.old.items }
    requires place { at < length (block_at blocks.old.items block) }
    ensures { blocks.new.items ≡ slice_set blocks.old.items block (slice_set (block_at blocks.old.items block) at number) }
{
    blocks[block].set(at, number);
}

/// Takes the last number out of a block.
fn pop_back<const SIZE: usize>(blocks: &mut Vec<Block<SIZE>>, block: usize) -> u32
    requires block { block < length blocks.old.items }
    requires some { 0 < length (block_at blocks.old.items block) }
    ensures rest { block_at blocks.old.items block ≡ block_at blocks.new.items block ++ result ∷ [] }
    ensures set { blocks.new.items ≡ slice_set blocks.old.items block (block_at blocks.new.items block) }
{
    blocks[block].pop_back()
}

/// Takes the first number out of a block.
fn pop_front<const SIZE: usize>(blocks: &mut Vec<Block<SIZE>>, block: usize) -> u32
    requires block { block < length blocks.old.items }
    requires some { 0 < length (block_at blocks.old.items block) }
    ensures rest { block_at blocks.old.items block ≡ result ∷ block_at blocks.new.items block }
    ensures set { blocks.new.items ≡ slice_set blocks.old.items block (block_at blocks.new.items block) }
{
    blocks[block].pop_front()
}

/// Puts a number behind those of a block.
fn push_back<const SIZE: usize>(blocks: &mut Vec<Block<SIZE>>, block: usize, number: u32)
    requires block { block < length blocks.old.items }
    requires room { length (block_at blocks.old.items block) ≤ SIZE }
    ensures { blocks.new.items ≡ slice_set blocks.old.items block (block_at blocks.old.items block ++ number ∷ []) }
{
    blocks[block].push_back(number);
}

/// Puts a number before those of a block.
fn push_front<const SIZE: usize>(blocks: &mut Vec<Block<SIZE>>, block: usize, number: u32)
    requires block { block < length blocks.old.items }
    requires room { length (block_at blocks.old.items block) ≤ SIZE }
    ensures { blocks.new.items ≡ slice_set blocks.old.items block (number ∷ block_at blocks.old.items block) }
{
    blocks[block].push_front(number);
}

/// Moves the last number of a block to the front of the next one.
fn pass_on<const SIZE: usize>(len: usize, blocks: &mut Vec<Block<SIZE>>, block: usize)
    requires size { 0 < SIZE }
    requires over { HaveOneMore SIZE len block blocks.old.items }
    requires before { block < len / SIZE }
    requires last { len / SIZE < length blocks.old.items }
    ensures same { concat blocks.new.items ≡ concat blocks.old.items }
    ensures over { HaveOneMore SIZE len (block + 1) blocks.new.items }
    ensures count { length blocks.new.items ≡ length blocks.old.items }
{
    let number = pop_back(blocks, block);
    push_front(blocks, block + 1, number);
}

/// Moves the first number of the next block to the end of a block.
fn pull_up<const SIZE: usize>(len: usize, blocks: &mut Vec<Block<SIZE>>, block: usize)
    requires size { 0 < SIZE }
    requires lacks { LackOne SIZE len block blocks.old.items }
    requires before { (block + 1) * SIZE < len }
    requires last { block + 1 < length blocks.old.items }
    ensures same { concat blocks.new.items ≡ concat blocks.old.items }
    ensures lacks { LackOne SIZE len (block + 1) blocks.new.items }
    ensures count { length blocks.new.items ≡ length blocks.old.items }
{
    let number = pop_front(blocks, block + 1);
    push_back(blocks, block, number);
}

/// Moves one number on in each block from one on, which has one too many, up to the last.
fn pass_all<const SIZE: usize>(len: usize, blocks: &mut Vec<Block<SIZE>>, block: usize)
    requires size { 0 < SIZE }
    requires over { HaveOneMore SIZE len block blocks.old.items }
    requires before { block ≤ len / SIZE }
    requires last { len / SIZE < length blocks.old.items }
    ensures same { concat blocks.new.items ≡ concat blocks.old.items }
    ensures over { HaveOneMore SIZE len (len / SIZE) blocks.new.items }
    ensures count { length blocks.new.items ≡ length blocks.old.items }
{
    for j in block..len / SIZE {
        pass_on(len, blocks, j);
    }
}

/// Moves one number back in each block after one, which lacks one, up to the last.
fn pull_all<const SIZE: usize>(len: usize, blocks: &mut Vec<Block<SIZE>>, block: usize)
    requires size { 0 < SIZE }
    requires some { 0 < len }
    requires lacks { LackOne SIZE len block blocks.old.items }
    requires before { block ≤ (len - 1) / SIZE }
    requires last { (len - 1) / SIZE < length blocks.old.items }
    ensures same { concat blocks.new.items ≡ concat blocks.old.items }
    ensures lacks { LackOne SIZE len ((len - 1) / SIZE) blocks.new.items }
    ensures count { length blocks.new.items ≡ length blocks.old.items }
{
    for j in block..(len - 1) / SIZE {
        pull_up(len, blocks, j);
    }
}

/// Puts a number at a place.
pub(crate) fn insert_number<const SIZE: usize>(
    len: usize,
    blocks: &mut Vec<Block<SIZE>>,
    at: usize,
    number: u32,
)
    requires size { 0 < SIZE }
    requires packed { ArePacked SIZE len blocks.old.items }
    requires place { at ≤ len }
    requires room { len < SIZE * length blocks.old.items }
    ensures added { concat blocks.new.items ≡ insert (concat blocks.old.items) at number }
    ensures packed { ArePacked SIZE (len + 1) blocks.new.items }
    ensures count { length blocks.new.items ≡ length blocks.old.items }
{
    insert_in(blocks, at / SIZE, at % SIZE, number);
    pass_all(len, blocks, at / SIZE);
}

/// Takes the number at a place out.
pub(crate) fn remove_number<const SIZE: usize>(len: usize, blocks: &mut Vec<Block<SIZE>>, at: usize)
    requires size { 0 < SIZE }
    requires packed { ArePacked SIZE len blocks.old.items }
    requires place { at < len }
    ensures rest { concat blocks.new.items ≡ remove (concat blocks.old.items) at }
    ensures packed { ArePacked SIZE (len - 1) blocks.new.items }
    ensures count { length blocks.new.items ≡ length blocks.old.items }
{
    remove_in(blocks, at / SIZE, at % SIZE);
    pull_all(len, blocks, at / SIZE);
}

/// Puts a number in the place of another one.
pub(crate) fn set_number<const SIZE: usize>(
    len: usize,
    blocks: &mut Vec<Block<SIZE>>,
    at: usize,
    number: u32,
)
    requires size { 0 < SIZE }
    requires packed { ArePacked SIZE len blocks.old.items }
    requires place { at < len }
    ensures replaced { concat blocks.new.items ≡ slice_set (concat blocks.old.items) at number }
    ensures packed { ArePacked SIZE len blocks.new.items }
    ensures count { length blocks.new.items ≡ length blocks.old.items }
{
    set_in(blocks, at / SIZE, at % SIZE, number);
}
