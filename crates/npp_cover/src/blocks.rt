//! Pairs of a set and a cost at one node, in blocks that are found by what their sets have in common.

ghost use Rattle.std.specs.Prelude.{◌≡◌, ℕ, ◌<◌, ◌≤◌, ◌||◌, OnOk, IfOk, IfSome, length};
ghost use Rattle.std.specs.List.{HoldsAt};
ghost use Rattle.npp_net.specs.TollSets.{IsWithin};
ghost use Rattle.npp_cover.specs.Blocks.{no_worse, some_no_worse, blocks_answer, AllHave, AreKeyed, PutsPair, SameAnswers, IsParted};

use npp_net::{TollId, TollSet};
use std::alloc::{AllocError, Global};

/// The set and the cost of a label.
#[derive(Clone, Copy, Debug, PartialEq, Eq)]
pub struct Pair {
    /// The tolls of the label.
    pub tolls: TollSet,
    /// Its cost, without tolls.
    pub cost: u64,
}

/// Pairs whose sets all have the tolls of a key.
#[derive(Drop)]
pub struct Block {
    /// The tolls that each set of the block has.
    pub key: TollSet,
    /// The pairs, no two of which have the same set.
    pub pairs: Vec<Pair>,
}

/// Pairs that are parted by a toll.
#[derive(Drop)]
pub struct Parts {
    /// Those whose sets have it.
    pub with: Vec<Pair>,
    /// Those whose sets do not.
    pub without: Vec<Pair>,
}

/// A block of more pairs than this is split, where it can be.
const ROOM: usize = 64;

/// The fewest pairs on either side of a split.
const FEWEST: usize = 4;

/// Whether the pair has no toll outside the set, and a cost not above.
fn is_no_worse(pair: Pair, tolls: TollSet, cost: u64) -> bool
    ensures { result ≡ no_worse pair tolls cost }
{
    pair.cost <= cost && pair.tolls.is_within(tolls)
}

/// Whether one of the pairs has no toll outside the set, and a cost not above this one.
fn has_no_worse(pairs: &[Pair], tolls: TollSet, cost: u64) -> bool
    ensures { result ≡ some_no_worse pairs.now tolls cost }
{
    pairs.iter().any(|p| is_no_worse(*p, tolls, cost))
}

/// The same of the pairs of a block. One whose key is not within the set has none, and is not gone through.
fn block_has(block: &Block, tolls: TollSet, cost: u64) -> bool
    requires { AllHave block.now.key block.now.pairs.items }
    ensures { result ≡ some_no_worse block.now.pairs.items tolls cost }
{
    block.key.is_within(tolls) && has_no_worse(&block.pairs, tolls, cost)
}

/// Whether a pair of some block has no toll outside the set, and a cost not above this one.
pub fn some_block_has(blocks: &[Block], tolls: TollSet, cost: u64) -> bool
    requires { AreKeyed blocks.now }
    ensures { result ≡ blocks_answer blocks.now tolls cost }
{
    let mut after = blocks.len();
    while after > 0 {
        after -= 1;
        if block_has(&blocks[after], tolls, cost) {
            return true;
        }
    }
    false
}

/// The last block whose key is within the set.
fn place_of(blocks: &[Block], tolls: TollSet) -> Option<usize>
    ensures in_range { IfSome result (λ i. i < length blocks.now) }
    ensures within { IfSome result (HoldsAt (λ b. IsWithin b.key tolls) blocks.now) }
{
    let mut after = blocks.len();
    while after > 0 {
        after -= 1;
        if blocks[after].key.is_within(tolls) {
            return Some(after);
        }
    }
    None
}

/// The place of the pair with this set.
fn place_of_set(pairs: &[Pair], tolls: TollSet) -> Option<usize>
    ensures in_range { IfSome result (λ i. i < length pairs.now) }
    ensures same { IfSome result (HoldsAt (λ p. p.tolls ≡ tolls) pairs.now) }
{
    for (i, pair) in pairs.iter().enumerate() {
        if pair.tolls.number() == tolls.number() {
            return Some(i);
        }
    }
    None
}

/// Puts in one pair, and tells whether there is one more. Of two pairs with the same set the cheaper one is kept.
fn put_pair(pairs: &mut Vec<Pair>, pair: Pair) -> Result<bool, AllocError>
    ensures answers { OnOk result ((s cost : ℕ) → some_no_worse pairs.new.items s cost ≡ (some_no_worse pairs.old.items s cost || no_worse pair s cost)) }
    ensures keys { (key : ℕ) → AllHave key pairs.old.items → IsWithin key pair.tolls → AllHave key pairs.new.items }
{
    match place_of_set(pairs, pair.tolls) {
        Some(at) => {
            if pair.cost < pairs[at].cost {
                pairs[at] = pair;
            }
            Ok(false)
        }
        None => {
            pairs.push(pair)?;
            Ok(true)
        }
    }
}

/// How many of the sets have the toll.
fn count_with(pairs: &[Pair], toll: TollId) -> usize
    requires { toll.0 < 128 }
    ensures { result ≤ length pairs.now }
{
    pairs.iter().filter(|p| p.tolls.has(toll)).count()
}

/// The toll that some sets have and some have not, most evenly, with a few of both.
fn split_toll(pairs: &[Pair]) -> Option<TollId>
    ensures { IfSome result (λ t. t.0 < 128) }
{
    let mut some = 0;
    let mut all = u128::MAX;
    for pair in pairs {
        some |= pair.tolls.number();
        all &= pair.tolls.number();
    }
    let mixed = some & !all;
    let mut best = FEWEST - 1;
    let mut chosen = None;
    for number in 0..128 {
        if (mixed >> number) & 1 == 1 {
            let with = count_with(pairs, TollId(number));
            let fewer = with.min(pairs.len() - with);
            if fewer > best {
                best = fewer;
                chosen = Some(TollId(number));
            }
        }
    }
    chosen
}

/// The pairs whose sets have the toll, and the others.
fn parted(alloc: Global, pairs: &[Pair], toll: TollId) -> Result<Parts, AllocError>
    requires { toll.0 < 128 }
    ensures { IfOk result (λ p. IsParted toll.0 pairs.now p.with.items p.without.items) }
{
    let mut with = Vec::new(alloc);
    let mut without = Vec::new(alloc);
    for pair in pairs {
        if pair.tolls.has(toll) {
            with.push(*pair)?;
        } else {
            without.push(*pair)?;
        }
    }
    Ok(Parts { with, without })
}

/// Splits the block by a toll, where there is one: the pairs that have it move to a new last block, whose key has it too.
fn split(blocks: &mut Vec<Block>, at: usize) -> Result<(), AllocError>
    requires at { at < length blocks.old.items }
    requires keyed { AreKeyed blocks.old.items }
    ensures answers { OnOk result (SameAnswers blocks.old.items blocks.new.items) }
    ensures keyed { AreKeyed blocks.new.items }
{
    let alloc = *blocks.allocator();
    let block = &blocks[at];
    if let Some(toll) = split_toll(&block.pairs) {
        let key = block.key.with(toll);
        let Parts { with, without } = parted(alloc, &block.pairs, toll)?;
        blocks[at].pairs = without;
        blocks.push(Block { key, pairs: with })?;
    }
    Ok(())
}

/// Whether a block that has come to so many pairs is to be split: at the first past its room, and where that could not be
/// done again at each power of two.
fn is_to_split(pairs: usize) -> bool {
    pairs == ROOM + 1 || (pairs > ROOM && pairs.is_power_of_two())
}

/// Puts the pair into this block, and tells whether it has one more.
fn put_at(blocks: &mut Vec<Block>, at: usize, pair: Pair) -> Result<bool, AllocError>
    requires at { at < length blocks.old.items }
    requires within { HoldsAt (λ b. IsWithin b.key pair.tolls) blocks.old.items at }
    requires keyed { AreKeyed blocks.old.items }
    ensures answers { OnOk result (PutsPair pair blocks.old.items blocks.new.items) }
    ensures keyed { AreKeyed blocks.new.items }
    ensures count { length blocks.new.items ≡ length blocks.old.items }
{
    let block = &mut blocks[at];
    let more = put_pair(&mut block.pairs, pair)?;
    Ok(more)
}

/// The first block, of this pair.
fn put_first(blocks: &mut Vec<Block>, pair: Pair) -> Result<(), AllocError>
    requires keyed { AreKeyed blocks.old.items }
    ensures answers { OnOk result (PutsPair pair blocks.old.items blocks.new.items) }
    ensures keyed { AreKeyed blocks.new.items }
{
    let mut pairs = Vec::new(*blocks.allocator());
    pairs.push(pair)?;
    blocks.push(Block {
        key: TollSet::empty(),
        pairs,
    })?;
    Ok(())
}

/// Puts in one pair: into the last block whose key is within its set.
pub fn put(blocks: &mut Vec<Block>, pair: Pair) -> Result<(), AllocError>
    requires keyed { AreKeyed blocks.old.items }
    ensures answers { OnOk result (PutsPair pair blocks.old.items blocks.new.items) }
    ensures keyed { AreKeyed blocks.new.items }
{
    match place_of(blocks, pair.tolls) {
        Some(at) => {
            if put_at(blocks, at, pair)? && is_to_split(blocks[at].pairs.len()) {
                split(blocks, at)?;
            }
            Ok(())
        }
        None => put_first(blocks, pair),
    }
}
