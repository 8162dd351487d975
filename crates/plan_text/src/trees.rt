//! The devices of the trees of a cover, from its kept edges.
ghost use Rattle.std.specs.Prelude.{ℕ, ◌≡◌, ◌<◌, ◌+◌, IfOk, OnOk, length};
ghost use Rattle.dom_base.specs.declared.kind.Kind.TheVariants.{N as nch};
ghost use Rattle.dual_rail.specs.ForestOrder.{IsForest};
ghost use Rattle.domino_cell.specs.NamedTrees.{inner_net};
ghost use Rattle.domino_cell.specs.Spelling.{spell};
ghost use Rattle.sp_network.specs.Tree.{Tree, inner_count};
ghost use Rattle.tree_map.specs.MappedCover.{IsArmInForest, root_cell_numbers};
ghost use Rattle.tree_map.specs.Plans.{IsArmTree, IsTreeOf};
ghost use Rattle.plan_text.specs.DeviceTexts.{with_put};
ghost use Rattle.plan_text.specs.Nets.{net_text, tree_front};
ghost use Rattle.plan_text.specs.PlannedDecks.{netted_in};
ghost use Rattle.plan_text.specs.PutCells.{HasRoomForArm, HasRoomForTree};

use crate::device_text::DeviceText;
use crate::net::{Net, rail_net};
use crate::planned::CutForest;
use dom_base::{Kind, OutOfMemory};
use dual_rail::{Arm, Forest, Pair};

/// How many inner nets the tree of a pair takes: one for each series.
#[cycle(count)]
pub fn pair_inner(forest: &Forest, kept: &[bool], place: usize) -> u32
    requires forest { IsForest forest.now }
    requires one_each { length kept.now ≡ length forest.now.pairs }
    requires there { place < length forest.now.pairs }
    requires small { HasRoomForTree forest.now kept.now place 0 }
    ensures { (tree : Tree ℕ) → IsTreeOf forest.now kept.now place tree → result ≡ inner_count tree }
{
    match forest.pairs[place] {
        Pair::And(left, right) => {
            1 + arm_inner(forest, kept, left) + arm_inner(forest, kept, right)
        }
        Pair::Or(left, right) => arm_inner(forest, kept, left) + arm_inner(forest, kept, right),
    }
}

/// So for the tree below an arm.
#[cycle(count)]
fn arm_inner(forest: &Forest, kept: &[bool], arm: Arm) -> u32
    requires forest { IsForest forest.now }
    requires one_each { length kept.now ≡ length forest.now.pairs }
    requires there { IsArmInForest forest.now arm }
    requires small { HasRoomForArm forest.now kept.now arm 0 }
    ensures { (tree : Tree ℕ) → IsArmTree forest.now kept.now arm tree → result ≡ inner_count tree }
{
    match arm {
        Arm::Literal(_) => 0,
        Arm::Pair(place) => {
            let place = place as usize;
            if kept[place] {
                pair_inner(forest, kept, place)
            } else {
                0
            }
        }
    }
}

/// Appends the cards of the tree of a pair from a net to another, with inner nets from a number on, and gives the
/// next number.
#[cycle(put)]
pub fn put_pair(
    cards: &mut DeviceText,
    cover: &CutForest<'_>,
    place: usize,
    top: Net<'_>,
    bottom: Net<'_>,
    digits: &[u8],
    inner: u32,
) -> Result<u32, OutOfMemory>
    requires forest { IsForest cover.now.forest.now }
    requires one_each { length cover.now.kept.now ≡ length cover.now.forest.now.pairs }
    requires cells { cover.now.cells.now ≡ root_cell_numbers cover.now.kept.now }
    requires there { place < length cover.now.forest.now.pairs }
    requires room { HasRoomForTree cover.now.forest.now cover.now.kept.now place inner }
    ensures next { IfOk result (λ next. (tree : Tree ℕ) → IsTreeOf cover.now.forest.now cover.now.kept.now place tree
        → next ≡ inner + inner_count tree) }
    ensures cards { OnOk result ((tree : Tree ℕ) → IsTreeOf cover.now.forest.now cover.now.kept.now place tree
        → cards.new ≡ with_put cards.old
        (spell nch (inner_net (tree_front digits.now)) (netted_in cover.now tree) (net_text top.entry) (net_text bottom.entry) inner)) }
{
    let forest = cover.forest;
    match forest.pairs[place] {
        Pair::And(left, right) => {
            let middle = Net::inner(digits, inner);
            let next = inner + 1;
            let next = put_arm(cards, cover, left, top, middle, digits, next)?;
            let next = put_arm(cards, cover, right, middle, bottom, digits, next)?;
            Ok(next)
        }
        Pair::Or(left, right) => {
            let next = put_arm(cards, cover, left, top, bottom, digits, inner)?;
            let next = put_arm(cards, cover, right, top, bottom, digits, next)?;
            Ok(next)
        }
    }
}

/// So for the tree below an arm.
#[cycle(put)]
fn put_arm(
    cards: &mut DeviceText,
    cover: &CutForest<'_>,
    arm: Arm,
    top: Net<'_>,
    bottom: Net<'_>,
    digits: &[u8],
    inner: u32,
) -> Result<u32, OutOfMemory>
    requires forest { IsForest cover.now.forest.now }
    requires one_each { length cover.now.kept.now ≡ length cover.now.forest.now.pairs }
    requires cells { cover.now.cells.now ≡ root_cell_numbers cover.now.kept.now }
    requires there { IsArmInForest cover.now.forest.now arm }
    requires room { HasRoomForArm cover.now.forest.now cover.now.kept.now arm inner }
    ensures next { IfOk result (λ next. (tree : Tree ℕ) → IsArmTree cover.now.forest.now cover.now.kept.now arm tree
        → next ≡ inner + inner_count tree) }
    ensures cards { OnOk result ((tree : Tree ℕ) → IsArmTree cover.now.forest.now cover.now.kept.now arm tree
        → cards.new ≡ with_put cards.old
        (spell nch (inner_net (tree_front digits.now)) (netted_in cover.now tree) (net_text top.entry) (net_text bottom.entry) inner)) }
{
    match arm {
        Arm::Literal(rail) => {
            cards.put(Kind::N, top, rail_net(cover.pins, rail), bottom)?;
            Ok(inner)
        }
        Arm::Pair(place) => {
            let place = place as usize;
            if cover.kept[place] {
                let next = put_pair(cards, cover, place, top, bottom, digits, inner)?;
                Ok(next)
            } else {
                cards.put(
                    Kind::N,
                    top,
                    Net::numbered(b"z", cover.cells[place]),
                    bottom,
                )?;
                Ok(inner)
            }
        }
    }
}
