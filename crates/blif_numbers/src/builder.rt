//! The file of a text so far, made line by line.
ghost use Rattle.std.specs.Prelude.{◌≡◌, ◌≢◌, [], ℕ, IfOk, OnOk, IsErrOf, IsFalse, IsTrue, MatchOption, None, Some, map};
ghost use Rattle.dom_base.specs.Lines.{first_word};
ghost use Rattle.blif_ast.specs.Cards.{card_of};
ghost use Rattle.blif_ast.specs.declared.kind.BlifKind.TheVariants.{NoModel};
ghost use Rattle.blif_numbers.specs.Build.{built_after, built_by, context_in, has_model, opened_by};
ghost use Rattle.blif_lines.specs.Cuts.{numbered_line};
ghost use Rattle.blif_numbers.specs.Steps.{card_fault, context_fault, row_fault};
ghost use Rattle.blif_numbers.specs.BuilderData.{
  built_in,
  card_taken,
  model_closed,
  model_taken,
  row_taken,
  table_closed,
  table_of_open,
  IsBuilder,
  IsInner,
};
ghost use Rattle.numbered_file.specs.Numbered.{file_of};
ghost use Rattle.numbered_file.specs.OpenLists.{no_lists, open_lists, IsClosed};
ghost use Rattle.blif_lines.specs.TextPlaces.{StandsAt};

use crate::cards::{push_part, word_at};
use crate::fault::BlifFault;
use crate::line::{Line, last_letter};
use crate::line_fault::{card_fault, row_fault};
use crate::open_model::{OpenModel, OpenTable, opened_table};
use blif_ast::{BlifKind, Card};
use dom_base::{NameHash, OutOfMemory};
use numbered_file::{NumberedFile, OpenFile, as_u32};
use std::alloc::Global;
use std::marker::Model;

/// The lists of the file so far, and the open model.
#[derive(Drop)]
pub struct Builder<'t> {
    file: OpenFile<'t>,
    open_model: Option<OpenModel>,
}

impl<'t> Model for Builder<'t> {
    ghost use Rattle.blif_numbers.specs.BuilderData.{BuilderData};

    ghost Value = { BuilderData };

    ghost view = { λ b. record { file = b.file; open_model = b.open_model } };
}

impl<'t> Builder<'t> {
    /// Nothing yet, of a text whose names are to be hashed so.
    pub fn new(alloc: Global, text: &'t [u8], hash: NameHash) -> Builder<'t>
        ensures lists { open_lists result.file ≡ no_lists text.now }
        ensures none { result.open_model ≡ None }
        ensures builder { IsBuilder result }
    {
        Builder {
            file: OpenFile::new(alloc, text, hash),
            open_model: None,
        }
    }

    /// Whether so many names met that they are to be hashed with a key.
    pub fn are_crowded(&self) -> bool {
        self.file.are_crowded()
    }

    /// The fault of the next line with the smallest number, where it has one.
    pub fn fault(&self, line: &Line<'_, 't>) -> Option<BlifKind>
        requires { IsBuilder self.now }
        ensures { result ≡ context_fault (context_in (built_in self.now)) line.now }
    {
        if line.has_control() {
            return Some(BlifKind::ControlByte);
        }
        if line.is_card() {
            card_fault(self.has_open_model(), line.card(), line.words)
        } else {
            row_fault(self.open_table(), line.words)
        }
    }

    fn has_open_model(&self) -> bool
        ensures { result ≡ has_model (built_in self.now).model }
    {
        match self.open_model {
            Some(_) => true,
            None => false,
        }
    }

    fn open_table(&self) -> Option<OpenTable>
        ensures { result ≡ table_of_open self.now.open_model }
    {
        match self.open_model {
            Some(model) => model.table,
            None => None,
        }
    }

    /// Takes the next line, which has no fault and whose first word stands at this place of the text.
    pub fn push(&mut self, line: &Line<'_, 't>, place: usize) -> Result<(), OutOfMemory>
        requires builder { IsBuilder self.old }
        requires clean { None ≡ context_fault (context_in (built_in self.old)) line.now }
        requires stands { StandsAt self.old.file.text place (first_word line.now.words) }
        ensures built { OnOk result (built_in self.new ≡ built_after (built_in self.old) line.now) }
        ensures builder { OnOk result (IsBuilder self.new) }
        ensures text { OnOk result (self.new.file.text ≡ self.old.file.text) }
    {
        match line.card() {
            Some(card) => self.push_line(card, line),
            None => self.push_row(line.words, place),
        }
    }

    /// Takes the next line, which is this card and has no fault.
    fn push_line(&mut self, card: Card, line: &Line<'_, 't>) -> Result<(), OutOfMemory>
        requires builder { IsBuilder self.old }
        requires known { card_of line.now ≡ Some card }
        requires clean { None ≡ context_fault (context_in (built_in self.old)) line.now }
        ensures built { OnOk result (built_in self.new ≡ built_by (built_in self.old) (Some card) line.now) }
        ensures builder { OnOk result (IsBuilder self.new) }
        ensures text { OnOk result (self.new.file.text ≡ self.old.file.text) }
    {
        let number = as_u32(line.number as usize)?;
        self.push_known(card, number, line.words)
    }

    /// Takes a card that is known.
    fn push_known(&mut self, card: Card, line: u32, words: &[&'t [u8]]) -> Result<(), OutOfMemory>
        requires builder { IsBuilder self.old }
        requires clean { None ≡ card_fault (has_model (built_in self.old).model) (Some card) (map (λ w. w.now) words.now) }
        ensures built { OnOk result (built_in self.new
            ≡ built_by (built_in self.old) (Some card) (numbered_line line (map (λ w. w.now) words.now))) }
        ensures builder { OnOk result (IsBuilder self.new) }
        ensures text { OnOk result (self.new.file.text ≡ self.old.file.text) }
    {
        self.close_table()?;
        match card {
            Card::Model => self.next_model(line, words),
            Card::End => self.close_model(),
            _ => self.push_card(card, line, words),
        }
    }

    /// Closes the open model, if there is one, and opens that of a card `.model`. No table is open.
    fn next_model(&mut self, line: u32, words: &[&'t [u8]]) -> Result<(), OutOfMemory>
        requires builder { IsBuilder self.old }
        requires table { (built_in self.old).table ≡ None }
        ensures built { OnOk result (built_in self.new
            ≡ model_taken (model_closed (built_in self.old)) (numbered_line line (map (λ w. w.now) words.now))) }
        ensures builder { OnOk result (IsBuilder self.new) }
        ensures text { OnOk result (self.new.file.text ≡ self.old.file.text) }
    {
        self.close_model()?;
        self.start_model(line, words)
    }

    /// The open model and its open table, if there is one.
    fn open_parts(&self) -> Option<(OpenModel, OpenTable)>
        ensures { MatchOption result (table_of_open self.now.open_model ≡ None)
            (λ p. (self.now.open_model ≡ Some p.0) × (p.0.table ≡ Some p.1)) }
    {
        match self.open_model {
            Some(model) => match model.table {
                Some(table) => Some((model, table)),
                None => None,
            },
            None => None,
        }
    }

    /// Takes a row of the open table.
    fn push_row(&mut self, words: &[&'t [u8]], place: usize) -> Result<(), OutOfMemory>
        requires builder { IsBuilder self.old }
        requires clean { None ≡ row_fault (opened_by (built_in self.old).table) (map (λ w. w.now) words.now) }
        requires stands { StandsAt self.old.file.text place (first_word (map (λ w. w.now) words.now)) }
        ensures built { OnOk result (built_in self.new ≡ row_taken (built_in self.old) (map (λ w. w.now) words.now)) }
        ensures builder { OnOk result (IsBuilder self.new) }
        ensures text { OnOk result (self.new.file.text ≡ self.old.file.text) }
    {
        match self.open_parts() {
            Some((model, table)) => self.push_row_in(model, table, words, place),
            None => Ok(()),
        }
    }

    /// The same in this model and table.
    fn push_row_in(
        &mut self,
        model: OpenModel,
        table: OpenTable,
        words: &[&'t [u8]],
        place: usize,
    ) -> Result<(), OutOfMemory>
        requires builder { IsBuilder self.old }
        requires model { self.old.open_model ≡ Some model }
        requires table { model.table ≡ Some table }
        requires clean { None ≡ row_fault (opened_by (built_in self.old).table) (map (λ w. w.now) words.now) }
        requires stands { StandsAt self.old.file.text place (first_word (map (λ w. w.now) words.now)) }
        ensures built { OnOk result (built_in self.new ≡ row_taken (built_in self.old) (map (λ w. w.now) words.now)) }
        ensures builder { OnOk result (IsBuilder self.new) }
        ensures text { OnOk result (self.new.file.text ≡ self.old.file.text) }
    {
        let after = model.with_table(Some(table.after_row(last_letter(words))));
        self.file.add_row(place)?;
        self.open_model = Some(after);
        Ok(())
    }

    /// Closes the open table, if there is one.
    fn close_table(&mut self) -> Result<(), OutOfMemory>
        requires builder { IsBuilder self.old }
        ensures built { OnOk result (built_in self.new ≡ table_closed (built_in self.old)) }
        ensures builder { OnOk result (IsBuilder self.new) }
        ensures text { OnOk result (self.new.file.text ≡ self.old.file.text) }
    {
        match self.open_parts() {
            Some((model, table)) => self.close_table_in(model, table),
            None => Ok(()),
        }
    }

    /// Closes this table of this model.
    fn close_table_in(&mut self, model: OpenModel, table: OpenTable) -> Result<(), OutOfMemory>
        requires builder { IsBuilder self.old }
        requires model { self.old.open_model ≡ Some model }
        requires table { model.table ≡ Some table }
        ensures built { OnOk result (built_in self.new ≡ table_closed (built_in self.old)) }
        ensures builder { OnOk result (IsBuilder self.new) }
        ensures text { OnOk result (self.new.file.text ≡ self.old.file.text) }
    {
        let after = model.with_table(None);
        self.file.add_part(table.kind(), table.line)?;
        self.open_model = Some(after);
        Ok(())
    }

    /// Closes the open model, if there is one. Its table is closed.
    fn close_model(&mut self) -> Result<(), OutOfMemory>
        requires builder { IsBuilder self.old }
        requires table { (built_in self.old).table ≡ None }
        ensures built { OnOk result (built_in self.new ≡ model_closed (built_in self.old)) }
        ensures builder { OnOk result (IsBuilder self.new) }
        ensures text { OnOk result (self.new.file.text ≡ self.old.file.text) }
    {
        match self.open_model {
            Some(model) => self.close_model_in(model),
            None => Ok(()),
        }
    }

    /// Closes this model.
    fn close_model_in(&mut self, model: OpenModel) -> Result<(), OutOfMemory>
        requires builder { IsBuilder self.old }
        requires model { self.old.open_model ≡ Some model }
        requires table { (built_in self.old).table ≡ None }
        ensures built { OnOk result (built_in self.new ≡ model_closed (built_in self.old)) }
        ensures builder { OnOk result (IsBuilder self.new) }
        ensures text { OnOk result (self.new.file.text ≡ self.old.file.text) }
    {
        self.file.add_model(model.name, model.line)?;
        self.open_model = None;
        Ok(())
    }

    /// Opens the model of a card `.model`. None is open.
    fn start_model(&mut self, line: u32, words: &[&'t [u8]]) -> Result<(), OutOfMemory>
        requires builder { IsBuilder self.old }
        requires none { (built_in self.old).model ≡ None }
        ensures built { OnOk result (built_in self.new
            ≡ model_taken (built_in self.old) (numbered_line line (map (λ w. w.now) words.now))) }
        ensures builder { OnOk result (IsBuilder self.new) }
        ensures text { OnOk result (self.new.file.text ≡ self.old.file.text) }
    {
        let name = self.file.number(word_at(words, 1))?;
        self.open_model = Some(OpenModel {
            name,
            line,
            table: None,
        });
        Ok(())
    }

    /// Takes a card that neither opens nor closes a model. No table is open.
    fn push_card(&mut self, card: Card, line: u32, words: &[&'t [u8]]) -> Result<(), OutOfMemory>
        requires builder { IsBuilder self.old }
        requires table { (built_in self.old).table ≡ None }
        requires inner { IsInner card }
        requires clean { None ≡ card_fault (has_model (built_in self.old).model) (Some card) (map (λ w. w.now) words.now) }
        ensures built { OnOk result (built_in self.new
            ≡ card_taken (built_in self.old) card (numbered_line line (map (λ w. w.now) words.now))) }
        ensures builder { OnOk result (IsBuilder self.new) }
        ensures text { OnOk result (self.new.file.text ≡ self.old.file.text) }
    {
        match self.open_model {
            Some(model) => self.push_card_in(model, card, line, words),
            None => Ok(()),
        }
    }

    /// The same in this model.
    fn push_card_in(
        &mut self,
        model: OpenModel,
        card: Card,
        line: u32,
        words: &[&'t [u8]],
    ) -> Result<(), OutOfMemory>
        requires builder { IsBuilder self.old }
        requires model { self.old.open_model ≡ Some model }
        requires table { (built_in self.old).table ≡ None }
        requires inner { IsInner card }
        requires clean { None ≡ card_fault (has_model (built_in self.old).model) (Some card) (map (λ w. w.now) words.now) }
        ensures built { OnOk result (built_in self.new
            ≡ card_taken (built_in self.old) card (numbered_line line (map (λ w. w.now) words.now))) }
        ensures builder { OnOk result (IsBuilder self.new) }
        ensures text { OnOk result (self.new.file.text ≡ self.old.file.text) }
    {
        let after = model.with_table(opened_table(card, line, words));
        push_part(&mut self.file, card, line, words)?;
        self.open_model = Some(after);
        Ok(())
    }

    /// The file after the last line, or the fault of a text without a model, at the line behind it.
    pub fn finish(self, line: u64) -> Result<NumberedFile<'t>, BlifFault>
        requires { IsBuilder self }
        ensures file { IfOk result (λ file. ((file_of file).models ≡ (model_closed (table_closed (built_in self.entry))).models)
            × ((file_of file).models ≢ [])) }
        ensures closed { IfOk result (λ file. IsClosed (open_lists file)) }
        ensures fault { (number : ℕ) (kind : _) → IsErrOf result (BlifFault.At number kind)
            → ((model_closed (table_closed (built_in self.entry))).models ≡ []) × (number ≡ line) × (kind ≡ NoModel) }
    {
        let mut builder = self;
        builder.close_all()?;
        if builder.has_no_model() {
            return Err(BlifFault::At {
                line,
                kind: BlifKind::NoModel,
            });
        }
        Ok(builder.file.close())
    }

    /// Closes the open table and the open model, if there are any.
    fn close_all(&mut self) -> Result<(), OutOfMemory>
        requires { IsBuilder self.old }
        ensures built { OnOk result (built_in self.new ≡ model_closed (table_closed (built_in self.old))) }
        ensures builder { OnOk result (IsBuilder self.new) }
    {
        self.close_table()?;
        self.close_model()
    }

    /// Whether no model is closed.
    fn has_no_model(&self) -> bool
        ensures none { IsTrue result → (built_in self.now).models ≡ [] }
        ensures some { IsFalse result → (built_in self.now).models ≢ [] }
    {
        self.file.has_no_model()
    }
}
