//! The places of the cards of each model.
ghost use Rattle.std.specs.Prelude.{◌≡◌, ◌<◌, ◌+◌, [], IfOk, IsSome, OnOk, Some, length, slice_get};
ghost use Rattle.numbered_file.specs.Numbered.{
  InstancePart,
  LatchPart,
  TablePart,
  between,
  instance_in,
  latch_in,
  parts_of,
  table_in,
};
ghost use Rattle.card_places.specs.CardPlaces.{AreCardPlaces, places_at};
ghost use Rattle.card_places.specs.KindPlaces.{
  AreKindPlaces,
  IsListAdded,
  with_instance,
  with_latch,
  with_table,
};

use crate::number_lists::NumberLists;
use dom_base::OutOfMemory;
use numbered_file::{ModelAt, NumberedFile, PartAt, PartKind, between};
use std::alloc::Global;
use std::marker::Model;

/// Of each model of a file the places of its tables, of its latches and of its instances among the parts of the file.
#[derive(Drop)]
pub struct CardPlaces {
    tables: NumberLists,
    latches: NumberLists,
    instances: NumberLists,
}

impl Model for CardPlaces {
    ghost use Rattle.card_places.specs.CardPlaces.{CardPlacesData};

    ghost Value = { CardPlacesData };

    ghost view = { λ c. record {
      tables = c.tables.lists;
      latches = c.latches.lists;
      instances = c.instances.lists;
    } };
}

impl CardPlaces {
    /// The places of the tables of a model; none where there is no such model.
    pub fn tables(&self, model: u32) -> &[u32]
        ensures { result.now ≡ places_at self.now.tables model }
    {
        self.tables.list(model)
    }

    /// The places of the latches of a model; none where there is no such model.
    pub fn latches(&self, model: u32) -> &[u32]
        ensures { result.now ≡ places_at self.now.latches model }
    {
        self.latches.list(model)
    }

    /// The places of the instances of a model; none where there is no such model.
    pub fn instances(&self, model: u32) -> &[u32]
        ensures { result.now ≡ places_at self.now.instances model }
    {
        self.instances.list(model)
    }

    /// The place of a table by its index in its model.
    pub fn table(&self, model: u32, index: u32) -> u32
        requires { IsSome (slice_get (places_at self.now.tables model) index) }
        ensures { slice_get (places_at self.now.tables model) index ≡ Some result }
    {
        self.tables.number(model, index)
    }

    /// The place of a latch by its index in its model.
    pub fn latch(&self, model: u32, index: u32) -> u32
        requires { IsSome (slice_get (places_at self.now.latches model) index) }
        ensures { slice_get (places_at self.now.latches model) index ≡ Some result }
    {
        self.latches.number(model, index)
    }

    /// The place of an instance by its index in its model.
    pub fn instance(&self, model: u32, index: u32) -> u32
        requires { IsSome (slice_get (places_at self.now.instances model) index) }
        ensures { slice_get (places_at self.now.instances model) index ≡ Some result }
    {
        self.instances.number(model, index)
    }
}

/// The places of the cards of all models of a file. The one error is out of memory.
pub fn card_places(alloc: Global, file: &NumberedFile<'_>) -> Result<CardPlaces, OutOfMemory>
    ensures { IfOk result (AreCardPlaces file.now) }
{
    let mut tables = NumberLists::new(alloc);
    let mut latches = NumberLists::new(alloc);
    let mut instances = NumberLists::new(alloc);
    let models = file.models();
    let mut start = 0;
    for index in 0..models.len() {
        let end = model_at(models, index).parts_end;
        add_model(file, &mut tables, &mut latches, &mut instances, start, end)?;
        start = end;
    }
    Ok(CardPlaces {
        tables,
        latches,
        instances,
    })
}

/// A model by its index.
pub fn model_at(models: &[ModelAt], index: usize) -> ModelAt
    requires { index < length models.now }
    ensures { slice_get models.now index ≡ Some result }
{
    models[index]
}

/// Adds the places of the cards of a model, whose parts stand from one place up to another.
fn add_model(
    file: &NumberedFile<'_>,
    tables: &mut NumberLists,
    latches: &mut NumberLists,
    instances: &mut NumberLists,
    start: u32,
    end: u32,
) -> Result<(), OutOfMemory>
    requires tables { tables.old.next ≡ [] }
    requires latches { latches.old.next ≡ [] }
    requires instances { instances.old.next ≡ [] }
    ensures tables { OnOk result (IsListAdded
        (AreKindPlaces table_in TablePart file.now start (between start end (parts_of file.now))) tables.old tables.new) }
    ensures latches { OnOk result (IsListAdded
        (AreKindPlaces latch_in LatchPart file.now start (between start end (parts_of file.now))) latches.old latches.new) }
    ensures instances { OnOk result (IsListAdded
        (AreKindPlaces instance_in InstancePart file.now start (between start end (parts_of file.now))) instances.old instances.new) }
{
    let parts = between(file.parts(), start, end);
    for index in 0..parts.len() {
        let kind = part_at(parts, index).kind;
        add_place(tables, latches, instances, kind, start + index as u32)?;
    }
    tables.close()?;
    latches.close()?;
    instances.close()?;
    Ok(())
}

/// A part by its place.
pub fn part_at(parts: &[PartAt], index: usize) -> PartAt
    requires { index < length parts.now }
    ensures { slice_get parts.now index ≡ Some result }
{
    parts[index]
}

/// Adds the place of a part of this kind.
fn add_place(
    tables: &mut NumberLists,
    latches: &mut NumberLists,
    instances: &mut NumberLists,
    kind: PartKind,
    place: u32,
) -> Result<(), OutOfMemory>
    ensures tables { OnOk result (tables.new ≡ with_table tables.old kind place) }
    ensures latches { OnOk result (latches.new ≡ with_latch latches.old kind place) }
    ensures instances { OnOk result (instances.new ≡ with_instance instances.old kind place) }
{
    match kind {
        PartKind::Table { .. } => tables.push(place),
        PartKind::Latch { .. } => latches.push(place),
        PartKind::Instance => instances.push(place),
    }
}
