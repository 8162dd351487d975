//! The devices of the cells of a cover.
ghost use Rattle.std.specs.Prelude.{ℕ, ◌≡◌, ◌≤◌, ◌<◌, All, List, OnOk, length, map};
ghost use Rattle.std.specs.List.{enumerate_from};
ghost use Rattle.clock_phase.specs.Levels.{greatest};
ghost use Rattle.deck_form.specs.DeckNets.{named_cell};
ghost use Rattle.domino_cell.specs.StyledCells.{inner_precharges, styled_cell};
ghost use Rattle.dual_rail.specs.ForestOrder.{IsForest};
ghost use Rattle.sp_network.specs.Tree.{Tree, inner_count};
ghost use Rattle.tree_map.specs.MappedCover.{root_cell_numbers};
ghost use Rattle.tree_map.specs.Plans.{IsTreeOf, roots};
ghost use Rattle.plan_text.specs.DeviceTexts.{with_groups, with_put};
ghost use Rattle.plan_text.specs.PlannedDecks.{AreCellTrees, netted_in, planned_cells};
ghost use Rattle.plan_text.specs.PutCells.{HasRoomForTree, HasSmallTrees, digits_cell, precharge_cards};

use crate::device_text::DeviceText;
use crate::net::Net;
use crate::planned::{CutForest, PlannedDeck};
use crate::trees::{pair_inner, put_pair};
use clock_phase::clock_of_level;
use dom_base::{Kind, OutOfMemory};
use domino_cell::Style;
use itoa::Buffer;

/// Appends the cards that precharge so many inner nets of the cell whose number has these digits.
fn put_inner_precharges(
    cards: &mut DeviceText,
    clock: u8,
    digits: &[u8],
    count: u32,
) -> Result<(), OutOfMemory>
    ensures { OnOk result (cards.new ≡ with_put cards.old (inner_precharges (digits_cell clock digits.now) 0 count)) }
{
    let clock = Net::numbered(b"ck", clock as u32);
    let vdd = Net::fixed(b"vdd");
    'inners: for inner in 0..count {
        cards.put(Kind::P, Net::inner(digits, inner), clock, vdd)?;
    }
    Ok(())
}

/// Appends the cards of the cell whose number has these digits before its tree, whose root is this pair: the precharge, and the
/// keeper or the precharge of each inner net.
fn put_precharge(
    cards: &mut DeviceText,
    style: Style,
    cover: &CutForest<'_>,
    place: usize,
    clock: u8,
    digits: &[u8],
) -> Result<(), OutOfMemory>
    requires forest { IsForest cover.now.forest.now }
    requires one_each { length cover.now.kept.now ≡ length cover.now.forest.now.pairs }
    requires there { place < length cover.now.forest.now.pairs }
    requires room { HasRoomForTree cover.now.forest.now cover.now.kept.now place 0 }
    ensures { OnOk result ((tree : Tree ℕ) → IsTreeOf cover.now.forest.now cover.now.kept.now place tree
        → cards.new ≡ with_put cards.old (precharge_cards style (digits_cell clock digits.now) (inner_count tree))) }
{
    let dynamic = Net::of_cell(b"d", digits);
    let vdd = Net::fixed(b"vdd");
    cards.put(Kind::P, dynamic, Net::numbered(b"ck", clock as u32), vdd)?;
    match style {
        Style::Keeper => {
            cards.put(Kind::Keep, dynamic, Net::of_cell(b"z", digits), vdd)?;
            Ok(())
        }
        Style::Precharge => {
            let count = pair_inner(cover.forest, cover.kept, place);
            put_inner_precharges(cards, clock, digits, count)?;
            Ok(())
        }
    }
}

/// Appends the cards of the cell whose number has these digits, in this style: the precharge and what follows it, the tree, whose
/// root is this pair, the foot and the inverter.
fn put_cell(
    cards: &mut DeviceText,
    style: Style,
    cover: &CutForest<'_>,
    place: usize,
    clock: u8,
    digits: &[u8],
) -> Result<(), OutOfMemory>
    requires forest { IsForest cover.now.forest.now }
    requires one_each { length cover.now.kept.now ≡ length cover.now.forest.now.pairs }
    requires cells { cover.now.cells.now ≡ root_cell_numbers cover.now.kept.now }
    requires there { place < length cover.now.forest.now.pairs }
    requires room { HasRoomForTree cover.now.forest.now cover.now.kept.now place 0 }
    ensures { OnOk result ((tree : Tree ℕ) → IsTreeOf cover.now.forest.now cover.now.kept.now place tree
        → cards.new ≡ with_put cards.old (styled_cell style (digits_cell clock digits.now) (netted_in cover.now tree))) }
{
    let dynamic = Net::of_cell(b"d", digits);
    let foot = Net::of_cell(b"f", digits);
    let vss = Net::fixed(b"vss");
    put_precharge(cards, style, cover, place, clock, digits)?;
    put_pair(cards, cover, place, dynamic, foot, digits, 0)?;
    cards.put(Kind::N, foot, Net::numbered(b"ck", clock as u32), vss)?;
    cards.put_inverter(Net::fixed(b"vdd"), vss, dynamic, Net::of_cell(b"z", digits))?;
    Ok(())
}

/// Appends the cards of the cells of a deck, from cell 0 on. Each is on the clock of its level.
pub fn put_cells(cards: &mut DeviceText, deck: &PlannedDeck<'_>) -> Result<(), OutOfMemory>
    requires some_phase { 1 ≤ deck.now.phases }
    requires few_phases { deck.now.phases ≤ 4 }
    requires forest { IsForest deck.now.cover.forest.now }
    requires one_each { length deck.now.cover.kept.now ≡ length deck.now.cover.forest.now.pairs }
    requires cells { deck.now.cover.cells.now ≡ root_cell_numbers deck.now.cover.kept.now }
    requires places { deck.now.places.now ≡ roots deck.now.cover.kept.now }
    requires levels { length deck.now.levels.now ≡ length deck.now.places.now }
    requires from_one { All (λ level. 1 ≤ level) deck.now.levels.now }
    requires top { deck.now.top ≡ greatest deck.now.levels.now }
    requires trees { HasSmallTrees deck.now.cover.forest.now deck.now.cover.kept.now }
    ensures { OnOk result ((trees : List (Tree ℕ)) → AreCellTrees deck.now.cover trees
        → cards.new ≡ with_groups cards.old
        (map (named_cell deck.now.style deck.now.cover.pins.now deck.now.cover.forest.now.leaves)
        (enumerate_from 0 (planned_cells deck.now trees)))) }
{
    'cells: for k in 0..deck.places.len() {
        let clock = clock_of_level(deck.phases, deck.top, deck.levels[k]);
        let mut buffer = Buffer::new();
        let digits = buffer.format(k as u32).as_bytes();
        put_cell(
            cards,
            deck.style,
            &deck.cover,
            deck.places[k],
            clock,
            digits,
        )?;
        cards.end_group()?;
    }
    Ok(())
}
