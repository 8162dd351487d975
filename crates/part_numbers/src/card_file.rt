//! Files by numbers whose cards are asked for.
ghost use Rattle.std.specs.Prelude.{◌≡◌, ◌≢◌, ◌<◌, IsSome, Some, [], length, option_map, slice_get};
ghost use Rattle.numbered_file.specs.Numbered.{file_of, parts_of};
ghost use Rattle.card_places.specs.CardPlaces.{AreCardPlaces};
ghost use Rattle.model_calls.specs.Expanded.{LatchCard, TableCard};
ghost use Rattle.model_calls.specs.Occurrences.{main_model};
ghost use Rattle.part_numbers.specs.WordCards.{card_by_words, part_by_words};
ghost use Rattle.part_numbers.specs.NumberedFiles.{card_at, model_at};

use crate::numbered::PartCard;
use crate::word_card::{WordCard, name_at};
use card_places::CardPlaces;
use numbered_file::{ModelAt, NumberedFile, PartAt};
use std::marker::Model;

/// A file by numbers whose cards are asked for, with the places of its cards.
#[derive(Drop)]
pub struct CardFile<'a> {
    file: &'a NumberedFile<'a>,
    places: &'a CardPlaces,
}

impl<'a> Model for CardFile<'a> {
    ghost use Rattle.blif_ast.specs.BlifFileData.{BlifFileData};
    ghost use Rattle.numbered_file.specs.Numbered.{file_of};
    ghost use Rattle.card_places.specs.CardPlaces.{AreCardPlaces};

    ghost Value = { BlifFileData };

    ghost view = { λ f. file_of f.file.now };

    ghost invariant = { λ f. AreCardPlaces f.file.now f.places.now };
}

fn part_at(parts: &[PartAt], place: usize) -> PartAt
    requires { place < length parts.now }
    ensures { slice_get parts.now place ≡ Some result }
{
    parts[place]
}

/// The words and rows of the part at this place.
fn words_at<'a>(file: &'a NumberedFile<'a>, place: u32) -> WordCard<'a>
    requires there { IsSome (slice_get (parts_of file.now) place) }
    ensures { slice_get (parts_of file.now) place ≡ Some (part_by_words result) }
{
    let place = place as usize;
    let part = part_at(file.parts(), place);
    WordCard {
        text: file.text(),
        names: file.names(),
        words: file.words_of(place),
        rows: file.rows_of(place),
        kind: part.kind,
        line: part.line,
    }
}

/// The table of this index in the model of this number of a file by numbers.
fn placed_table<'a>(
    file: &'a NumberedFile<'a>,
    places: &CardPlaces,
    model: u32,
    index: u32,
) -> WordCard<'a>
    requires are { AreCardPlaces file.now places.now }
    requires there { IsSome (slice_get (model_at (file_of file.now) model).tables index) }
    ensures { option_map TableCard (slice_get (model_at (file_of file.now) model).tables index) ≡ Some (card_by_words result) }
{
    words_at(file, places.table(model, index))
}

/// The latch of this index in the model of this number of a file by numbers.
fn placed_latch<'a>(
    file: &'a NumberedFile<'a>,
    places: &CardPlaces,
    model: u32,
    index: u32,
) -> WordCard<'a>
    requires are { AreCardPlaces file.now places.now }
    requires there { IsSome (slice_get (model_at (file_of file.now) model).latches index) }
    ensures { option_map LatchCard (slice_get (model_at (file_of file.now) model).latches index) ≡ Some (card_by_words result) }
{
    words_at(file, places.latch(model, index))
}

/// A card of a file by numbers.
fn placed_card<'a>(
    file: &'a NumberedFile<'a>,
    places: &CardPlaces,
    model: u32,
    card: PartCard,
) -> WordCard<'a>
    requires are { AreCardPlaces file.now places.now }
    requires there { IsSome (card_at (model_at (file_of file.now) model) card) }
    ensures { card_at (model_at (file_of file.now) model) card ≡ Some (card_by_words result) }
{
    match card {
        PartCard::Table(index) => placed_table(file, places, model, index),
        PartCard::Latch(index) => placed_latch(file, places, model, index),
    }
}

fn first_of(models: &[ModelAt]) -> ModelAt
    requires { 0 < length models.now }
    ensures { slice_get models.now 0 ≡ Some result }
{
    models[0]
}

/// The main model of a file by numbers.
fn main_at(file: &NumberedFile<'_>) -> ModelAt
    requires some { (file_of file.now).models ≢ [] }
    ensures { slice_get file.now.models 0 ≡ Some result }
{
    first_of(file.models())
}

/// The name of the main model of a file by numbers.
fn main_name_of<'a>(file: &'a NumberedFile<'a>) -> &'a [u8]
    requires some { (file_of file.now).models ≢ [] }
    ensures { result.now ≡ (main_model (file_of file.now)).name }
{
    let names = file.names();
    names.name(main_at(file).name)
}

/// The line of the main model of a file by numbers.
fn main_line_of(file: &NumberedFile<'_>) -> u64
    requires some { (file_of file.now).models ≢ [] }
    ensures { result ≡ (main_model (file_of file.now)).line }
{
    u64::from(main_at(file).line)
}

/// The output at an index of the main model of a file by numbers.
fn main_output_of<'a>(file: &'a NumberedFile<'a>, index: usize) -> &'a [u8]
    requires there { index < length (main_model (file_of file.now)).outputs }
    ensures { slice_get (main_model (file_of file.now)).outputs index ≡ Some result.now }
{
    name_at(file.names(), file.outputs(), index)
}

impl<'a> CardFile<'a> {
    /// A file by numbers, with the places of its cards.
    pub fn numbered(file: &'a NumberedFile<'_>, places: &'a CardPlaces) -> CardFile<'a>
        requires { AreCardPlaces file.now places.now }
        ensures { result ≡ file_of file.now }
    {
        CardFile { file, places }
    }

    /// A card of the model of this number.
    pub fn card(&self, model: u32, card: PartCard) -> WordCard<'a>
        requires there { IsSome (card_at (model_at self.now model) card) }
        ensures { card_at (model_at self.now model) card ≡ Some (card_by_words result) }
    {
        placed_card(self.file, self.places, model, card)
    }

    /// The name of the main model.
    pub fn main_name(&self) -> &'a [u8]
        requires some { self.now.models ≢ [] }
        ensures { result.now ≡ (main_model self.now).name }
    {
        main_name_of(self.file)
    }

    /// The line of the main model.
    pub fn main_line(&self) -> u64
        requires some { self.now.models ≢ [] }
        ensures { result ≡ (main_model self.now).line }
    {
        main_line_of(self.file)
    }

    /// The output of the main model at an index.
    pub fn main_output(&self, index: usize) -> &'a [u8]
        requires there { index < length (main_model self.now).outputs }
        ensures { slice_get (main_model self.now).outputs index ≡ Some result.now }
    {
        main_output_of(self.file, index)
    }
}
