//! The text of the deck of a plan.
ghost use Rattle.std.specs.Prelude.{ℕ, ◌≡◌, ◌≤◌, ◌<◌, ◌+◌, ◌^◌, ◌++◌, ◌∷◌, [], All, IfOk, List, OnOk, length};
ghost use Rattle.clock_phase.specs.Levels.{greatest};
ghost use Rattle.deck_form.specs.declared.version.DeckVersion.TheVariants.{One, Two};
ghost use Rattle.dual_rail.specs.ForestOrder.{IsForest};
ghost use Rattle.sp_network.specs.Tree.{Tree};
ghost use Rattle.tree_map.specs.MappedCover.{root_cell_numbers};
ghost use Rattle.tree_map.specs.Plans.{roots};
ghost use Rattle.plan_text.specs.DeviceTexts.{with_groups};
ghost use Rattle.deck.specs.Ports.{leading_ports};
ghost use Rattle.plan_text.specs.CalledTexts.{calls_of_groups, shapes_of_groups};
ghost use Rattle.plan_text.specs.CardTexts.{named_cards};
ghost use Rattle.plan_text.specs.DeckTexts.{cells_head, grouped_deck_text, named_deck_text};
ghost use Rattle.plan_text.specs.PlannedDecks.{AreCellTrees, planned_devices, planned_groups};
ghost use Rattle.plan_text.specs.PutCells.{HasSmallTrees};
ghost use Rattle.plan_text.specs.PutGroups.{signed_phases};
ghost use Rattle.spice_text.specs.Parts.{subckt_with};

use crate::buffered::BufferedText;
use crate::card_text::CardText;
use crate::cells::put_cells;
use crate::device_text::DeviceText;
use crate::group_text::{GroupCalls, GroupText};
use crate::groups::{put_complements, put_latches, put_sinks};
use crate::head::{begin_cells, begin_deck, end_deck, put_subckt};
use crate::planned::PlannedDeck;
use deck_form::DeckVersion;
use dom_base::OutOfMemory;
use domino_cell::Style;
use spice_text::{ShapeSet, put_shapes};
use std::alloc::Global;

/// About how many bytes a card has at most: a text that needs more room than it was given is copied.
const BYTES_OF_A_CARD: usize = 36;

/// About how many bytes the head of a deck has for each pin and each output.
const BYTES_OF_A_PORT: usize = 32;

/// How many devices a cell has beside those of its tree.
const DEVICES_AROUND_A_TREE: usize = 6;

/// How many devices a latch has.
const DEVICES_OF_A_LATCH: usize = 9;

/// How many devices an inverter has.
const DEVICES_OF_AN_INVERTER: usize = 2;

/// About how many devices the trees of so many pairs have, with those that precharge their inner nets.
fn devices_of_trees(style: Style, pairs: usize) -> usize {
    match style {
        Style::Keeper => pairs,
        Style::Precharge => pairs.saturating_mul(2),
    }
}

/// About how many bytes the text of a deck has at most, whose forest has so many pairs.
fn room_for(deck: &PlannedDeck<'_>, pairs: usize) -> usize {
    let sinks = deck.outs.len().saturating_add(deck.starts.len());
    let inverters = deck.complements.len().saturating_add(sinks);
    let devices = devices_of_trees(deck.style, pairs)
        .saturating_add(deck.places.len().saturating_mul(DEVICES_AROUND_A_TREE))
        .saturating_add(deck.starts.len().saturating_mul(DEVICES_OF_A_LATCH))
        .saturating_add(inverters.saturating_mul(DEVICES_OF_AN_INVERTER));
    let ports = deck.cover.pins.len().saturating_add(deck.outs.len());
    devices
        .saturating_mul(BYTES_OF_A_CARD)
        .saturating_add(ports.saturating_mul(BYTES_OF_A_PORT))
}

/// Appends the cards of the devices of a deck: cells, inverters of complements, latches and inverters of sinks.
fn put_devices(
    alloc: Global,
    cards: &mut DeviceText,
    deck: &PlannedDeck<'_>,
) -> Result<(), OutOfMemory>
    requires some_phase { 1 ≤ deck.now.phases }
    requires few_phases { deck.now.phases ≤ 4 }
    requires forest { IsForest deck.now.cover.forest.now }
    requires one_each { length deck.now.cover.kept.now ≡ length deck.now.cover.forest.now.pairs }
    requires cells { deck.now.cover.cells.now ≡ root_cell_numbers deck.now.cover.kept.now }
    requires places { deck.now.places.now ≡ roots deck.now.cover.kept.now }
    requires levels { length deck.now.levels.now ≡ length deck.now.places.now }
    requires from_one { All (λ level. 1 ≤ level) deck.now.levels.now }
    requires top { deck.now.top ≡ greatest deck.now.levels.now }
    requires trees { HasSmallTrees deck.now.cover.forest.now deck.now.cover.kept.now }
    requires leaves { deck.now.cover.forest.now.leaves ≡ length deck.now.cover.pins.now + length deck.now.starts.now }
    requires ends { length deck.now.cover.forest.now.ends ≡ length deck.now.outs.now + length deck.now.starts.now }
    ensures { OnOk result ((trees : List (Tree ℕ)) → AreCellTrees deck.now.cover trees
        → cards.new ≡ with_groups cards.old (planned_groups deck.now trees)) }
{
    let cover = deck.cover;
    let forest = cover.forest;
    put_cells(cards, deck)?;
    put_complements(cards, cover.pins, deck.complements)?;
    put_latches(alloc, cards, deck.starts)?;
    put_sinks(
        cards,
        cover.pins,
        deck.outs,
        cover.cells,
        forest.ends.as_slice(),
    )?;
    Ok(())
}

/// A text with the cards of the devices of a deck behind it.
fn with_cards(
    alloc: Global,
    text: BufferedText,
    deck: &PlannedDeck<'_>,
) -> Result<BufferedText, OutOfMemory>
    requires some_phase { 1 ≤ deck.now.phases }
    requires few_phases { deck.now.phases ≤ 4 }
    requires forest { IsForest deck.now.cover.forest.now }
    requires one_each { length deck.now.cover.kept.now ≡ length deck.now.cover.forest.now.pairs }
    requires cells { deck.now.cover.cells.now ≡ root_cell_numbers deck.now.cover.kept.now }
    requires places { deck.now.places.now ≡ roots deck.now.cover.kept.now }
    requires levels { length deck.now.levels.now ≡ length deck.now.places.now }
    requires from_one { All (λ level. 1 ≤ level) deck.now.levels.now }
    requires top { deck.now.top ≡ greatest deck.now.levels.now }
    requires trees { HasSmallTrees deck.now.cover.forest.now deck.now.cover.kept.now }
    requires leaves { deck.now.cover.forest.now.leaves ≡ length deck.now.cover.pins.now + length deck.now.starts.now }
    requires ends { length deck.now.cover.forest.now.ends ≡ length deck.now.outs.now + length deck.now.starts.now }
    ensures { IfOk result (λ cards. (trees : List (Tree ℕ)) → AreCellTrees deck.now.cover trees
        → cards ≡ text ++ named_cards 0 (planned_devices deck.now trees)) }
{
    let mut cards = DeviceText::Cards(CardText::new(text));
    put_devices(alloc, &mut cards, deck)?;
    let cards = cards.into_cards();
    Ok(cards.into_text())
}

/// The text of a deck by the cards of its devices.
fn card_text_of_plan(alloc: Global, deck: &PlannedDeck<'_>) -> Result<Vec<u8>, OutOfMemory>
    requires some_phase { 1 ≤ deck.now.phases }
    requires few_phases { deck.now.phases ≤ 4 }
    requires one_each { length deck.now.cover.kept.now ≡ length deck.now.cover.forest.now.pairs }
    requires cells { deck.now.cover.cells.now ≡ root_cell_numbers deck.now.cover.kept.now }
    requires places { deck.now.places.now ≡ roots deck.now.cover.kept.now }
    requires levels { length deck.now.levels.now ≡ length deck.now.places.now }
    requires from_one { All (λ level. 1 ≤ level) deck.now.levels.now }
    requires top { deck.now.top ≡ greatest deck.now.levels.now }
    requires trees { HasSmallTrees deck.now.cover.forest.now deck.now.cover.kept.now }
    requires leaves { deck.now.cover.forest.now.leaves ≡ length deck.now.cover.pins.now + length deck.now.starts.now }
    requires ends { length deck.now.cover.forest.now.ends ≡ length deck.now.outs.now + length deck.now.starts.now }
    requires signs { length deck.now.signs.now ≡ length deck.now.outs.now + length deck.now.starts.now }
    ensures { IfOk result (λ text. (trees : List (Tree ℕ)) → AreCellTrees deck.now.cover trees
        → text.items ≡ named_deck_text deck.now.name.now (signed_phases deck.now.outs.now deck.now.starts.now deck.now.signs.now)
        deck.now.phases deck.now.cover.pins.now deck.now.outs.now (planned_devices deck.now trees)) }
{
    let cover = deck.cover;
    let forest = cover.forest;
    let room = room_for(deck, forest.pairs.len());
    let head = begin_deck(
        alloc,
        room,
        deck.name,
        deck.phases,
        deck.signs,
        cover.pins,
        deck.outs,
    )?;
    let mut text = with_cards(alloc, head, deck)?;
    end_deck(&mut text, deck.name)?;
    let bytes = text.into_text()?;
    Ok(bytes)
}

/// The shapes and the calls of the cells, complements, latches and sinks of a deck.
fn calls_of_plan(alloc: Global, deck: &PlannedDeck<'_>) -> Result<GroupCalls, OutOfMemory>
    requires some_phase { 1 ≤ deck.now.phases }
    requires few_phases { deck.now.phases ≤ 4 }
    requires forest { IsForest deck.now.cover.forest.now }
    requires one_each { length deck.now.cover.kept.now ≡ length deck.now.cover.forest.now.pairs }
    requires cells { deck.now.cover.cells.now ≡ root_cell_numbers deck.now.cover.kept.now }
    requires places { deck.now.places.now ≡ roots deck.now.cover.kept.now }
    requires levels { length deck.now.levels.now ≡ length deck.now.places.now }
    requires from_one { All (λ level. 1 ≤ level) deck.now.levels.now }
    requires top { deck.now.top ≡ greatest deck.now.levels.now }
    requires trees { HasSmallTrees deck.now.cover.forest.now deck.now.cover.kept.now }
    requires leaves { deck.now.cover.forest.now.leaves ≡ length deck.now.cover.pins.now + length deck.now.starts.now }
    requires ends { length deck.now.cover.forest.now.ends ≡ length deck.now.outs.now + length deck.now.starts.now }
    ensures shapes { IfOk result (λ c. (trees : List (Tree ℕ)) → AreCellTrees deck.now.cover trees
        → c.shapes.keys ≡ shapes_of_groups (planned_groups deck.now trees)) }
    ensures calls { IfOk result (λ c. (trees : List (Tree ℕ)) → AreCellTrees deck.now.cover trees
        → c.calls ≡ calls_of_groups (planned_groups deck.now trees)) }
{
    let mut groups = DeviceText::Groups(GroupText::new(alloc)?);
    put_devices(alloc, &mut groups, deck)?;
    let groups = groups.into_groups();
    Ok(groups.into_calls())
}

/// The lines of a deck by cells before its calls, where these are the shapes. There is room for so many bytes.
fn head_of_cells(
    alloc: Global,
    room: usize,
    deck: &PlannedDeck<'_>,
    shapes: &ShapeSet,
) -> Result<BufferedText, OutOfMemory>
    requires some_phase { 1 ≤ deck.now.phases }
    requires few_phases { deck.now.phases ≤ 4 }
    requires few_signs { length deck.now.signs.now < 2 ^ 32 }
    requires signs { length deck.now.signs.now ≡ length deck.now.outs.now + length deck.now.starts.now }
    ensures { IfOk result (λ text. text ≡ cells_head (signed_phases deck.now.outs.now deck.now.starts.now deck.now.signs.now) shapes.now.keys
        ++ subckt_with deck.now.name.now (leading_ports deck.now.phases) (deck.now.cover.pins.now ∷ deck.now.outs.now ∷ [])) }
{
    let head = begin_cells(alloc, room, deck.outs, deck.signs)?;
    let mut head = head.into_text()?;
    put_shapes(alloc, &mut head, shapes)?;
    let mut text = BufferedText::new(head);
    put_subckt(
        &mut text,
        deck.name,
        deck.phases,
        deck.cover.pins,
        deck.outs,
    )?;
    Ok(text)
}

/// The text of a deck by its cells.
fn cell_text_of_plan(alloc: Global, deck: &PlannedDeck<'_>) -> Result<Vec<u8>, OutOfMemory>
    requires some_phase { 1 ≤ deck.now.phases }
    requires few_phases { deck.now.phases ≤ 4 }
    requires one_each { length deck.now.cover.kept.now ≡ length deck.now.cover.forest.now.pairs }
    requires cells { deck.now.cover.cells.now ≡ root_cell_numbers deck.now.cover.kept.now }
    requires places { deck.now.places.now ≡ roots deck.now.cover.kept.now }
    requires levels { length deck.now.levels.now ≡ length deck.now.places.now }
    requires from_one { All (λ level. 1 ≤ level) deck.now.levels.now }
    requires top { deck.now.top ≡ greatest deck.now.levels.now }
    requires trees { HasSmallTrees deck.now.cover.forest.now deck.now.cover.kept.now }
    requires leaves { deck.now.cover.forest.now.leaves ≡ length deck.now.cover.pins.now + length deck.now.starts.now }
    requires ends { length deck.now.cover.forest.now.ends ≡ length deck.now.outs.now + length deck.now.starts.now }
    requires signs { length deck.now.signs.now ≡ length deck.now.outs.now + length deck.now.starts.now }
    ensures { IfOk result (λ text. (trees : List (Tree ℕ)) → AreCellTrees deck.now.cover trees
        → text.items ≡ grouped_deck_text deck.now.name.now (signed_phases deck.now.outs.now deck.now.starts.now deck.now.signs.now)
        deck.now.phases deck.now.cover.pins.now deck.now.outs.now (planned_groups deck.now trees)) }
{
    let forest = deck.cover.forest;
    let room = room_for(deck, forest.pairs.len());
    let GroupCalls { shapes, calls } = calls_of_plan(alloc, deck)?;
    let calls = calls.into_text()?;
    let mut text = head_of_cells(alloc, room, deck, &shapes)?;
    text.put(calls.as_slice())?;
    end_deck(&mut text, deck.name)?;
    let bytes = text.into_text()?;
    Ok(bytes)
}

/// The text of a deck in a version. The one error is out of memory.
pub fn text_of_plan(
    alloc: Global,
    deck: &PlannedDeck<'_>,
    version: DeckVersion,
) -> Result<Vec<u8>, OutOfMemory>
    requires some_phase { 1 ≤ deck.now.phases }
    requires few_phases { deck.now.phases ≤ 4 }
    requires one_each { length deck.now.cover.kept.now ≡ length deck.now.cover.forest.now.pairs }
    requires cells { deck.now.cover.cells.now ≡ root_cell_numbers deck.now.cover.kept.now }
    requires places { deck.now.places.now ≡ roots deck.now.cover.kept.now }
    requires levels { length deck.now.levels.now ≡ length deck.now.places.now }
    requires from_one { All (λ level. 1 ≤ level) deck.now.levels.now }
    requires top { deck.now.top ≡ greatest deck.now.levels.now }
    requires trees { HasSmallTrees deck.now.cover.forest.now deck.now.cover.kept.now }
    requires leaves { deck.now.cover.forest.now.leaves ≡ length deck.now.cover.pins.now + length deck.now.starts.now }
    requires ends { length deck.now.cover.forest.now.ends ≡ length deck.now.outs.now + length deck.now.starts.now }
    requires signs { length deck.now.signs.now ≡ length deck.now.outs.now + length deck.now.starts.now }
    ensures one { version ≡ One → IfOk result (λ text. (trees : List (Tree ℕ)) → AreCellTrees deck.now.cover trees
        → text.items ≡ named_deck_text deck.now.name.now (signed_phases deck.now.outs.now deck.now.starts.now deck.now.signs.now)
        deck.now.phases deck.now.cover.pins.now deck.now.outs.now (planned_devices deck.now trees)) }
    ensures two { version ≡ Two → IfOk result (λ text. (trees : List (Tree ℕ)) → AreCellTrees deck.now.cover trees
        → text.items ≡ grouped_deck_text deck.now.name.now (signed_phases deck.now.outs.now deck.now.starts.now deck.now.signs.now)
        deck.now.phases deck.now.cover.pins.now deck.now.outs.now (planned_groups deck.now trees)) }
{
    match version {
        DeckVersion::One => card_text_of_plan(alloc, deck),
        DeckVersion::Two => cell_text_of_plan(alloc, deck),
    }
}
