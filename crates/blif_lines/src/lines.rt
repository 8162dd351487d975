//! The lines of a text, joined to logical lines and cut into words, in one pass over the text.
ghost use Rattle.std.specs.Prelude.{
  ◌≡◌,
  ◌≤◌,
  ◌<◌,
  ◌+◌,
  ◌-◌,
  ◌∷◌,
  ◌++◌,
  [],
  IfOk,
  IsOk,
  OnOk,
  List,
  MatchOption,
  ℕ,
  false,
  true,
  map,
  length,
  take,
};
ghost use Rattle.std.specs.List.{list_any};
ghost use Rattle.dom_base.specs.Cuts.{NumbersFit};
ghost use Rattle.dom_base.specs.Lines.{is_control, lines, some_piece};
ghost use Rattle.blif_ast.specs.LogicalLines.{logical_lines_from};
ghost use Rattle.blif_lines.specs.Cuts.{numbered_line, worded_lines, IsPiece};
ghost use Rattle.blif_lines.specs.Pieces.{line_words, line_joined, behind_line, has_blank_at, IsNoted, IsStep, IsWordEnd};
ghost use Rattle.blif_lines.specs.TextPlaces.{IsRestOf, StandsAt};

use crate::cut::{
    WordEnd, behind_line, has_blank_at, has_control_in, is_joined, last_line, own_part, word_end,
};
use dom_base::OutOfMemory;

/// The lines of a text that aren't read yet, and the number of the first of them.
#[derive(Drop)]
pub struct Lines<'t> {
    pub text: &'t [u8],
    pub rest: &'t [u8],
    pub number: u64,
}

/// What is noted of the words of a logical line: whether they have a control byte, and at which place of the text the
/// first of them stands.
#[derive(Clone, Copy, Debug)]
pub struct Notes {
    pub has_control: bool,
    pub place: usize,
}

impl<'t> Lines<'t> {
    /// Cuts the next logical line that has words: its number and, in place of those before, its words and what is noted
    /// of them.
    pub fn next(
        &mut self,
        words: &mut Vec<&'t [u8]>,
        notes: &mut Notes,
    ) -> Result<Option<u64>, OutOfMemory>
        requires fit { NumbersFit self.old.number self.old.rest.now }
        requires rest { IsRestOf self.old.text.now self.old.rest.now }
        ensures text { self.new.text ≡ self.old.text }
        ensures rest { IsRestOf self.new.text.now self.new.rest.now }
        ensures fit { NumbersFit self.new.number self.new.rest.now }
        ensures number { IsOk result
            → self.new.number + length (lines self.new.rest.now) ≡ self.old.number + length (lines self.old.rest.now) }
        ensures shorter { length self.new.rest.now ≤ length self.old.rest.now }
        ensures line { IfOk result (λ r. MatchOption r
            ((self.new.rest.now ≡ []) × (logical_lines_from self.old.number (lines self.old.rest.now) ≡ []))
            (λ number. (length self.new.rest.now < length self.old.rest.now) × (logical_lines_from self.old.number (lines self.old.rest.now)
            ≡ numbered_line number (map (λ w. w.now) words.new.items) ∷ logical_lines_from self.new.number (lines self.new.rest.now)))) }
        ensures noted { IfOk result (λ r. MatchOption r (Unit {0})
            (λ _. IsNoted self.old.text.now (map (λ w. w.now) words.new.items) notes.new.has_control notes.new.place)) }
    {
        'lines: while !self.rest.is_empty() {
            let number = self.next_joined(words, notes)?;
            if !words.is_empty() {
                return Ok(Some(number));
            }
        }
        Ok(None)
    }

    /// Cuts the next line, joined with those after it.
    fn next_joined(
        &mut self,
        words: &mut Vec<&'t [u8]>,
        notes: &mut Notes,
    ) -> Result<u64, OutOfMemory>
        requires some { 0 < length self.old.rest.now }
        requires fit { NumbersFit self.old.number self.old.rest.now }
        requires rest { IsRestOf self.old.text.now self.old.rest.now }
        ensures text { self.new.text ≡ self.old.text }
        ensures rest { IsRestOf self.new.text.now self.new.rest.now }
        ensures fit { NumbersFit self.new.number self.new.rest.now }
        ensures number { IsOk result
            → self.new.number + length (lines self.new.rest.now) ≡ self.old.number + length (lines self.old.rest.now) }
        ensures shorter { IsOk result → length self.new.rest.now < length self.old.rest.now }
        ensures no_longer { length self.new.rest.now ≤ length self.old.rest.now }
        ensures line { IfOk result (λ number. worded_lines self.old.number (lines self.old.rest.now)
            ≡ numbered_line number (map (λ w. w.now) words.new.items) ∷ worded_lines self.new.number (lines self.new.rest.now)) }
        ensures noted { OnOk result (IsNoted self.old.text.now (map (λ w. w.now) words.new.items) notes.new.has_control notes.new.place) }
    {
        let number = self.number;
        words.clear();
        notes.has_control = false;
        let mut goes_on = self.next_piece(words, notes)?;
        'pieces: while goes_on && !self.rest.is_empty() {
            goes_on = self.next_piece(words, notes)?;
        }
        Ok(number)
    }

    /// Appends the words of the next line. Whether the line after it is joined with it.
    fn next_piece(
        &mut self,
        words: &mut Vec<&'t [u8]>,
        notes: &mut Notes,
    ) -> Result<bool, OutOfMemory>
        requires some { 0 < length self.old.rest.now }
        requires fit { NumbersFit self.old.number self.old.rest.now }
        requires rest { IsRestOf self.old.text.now self.old.rest.now }
        requires noted { IsNoted self.old.text.now (map (λ w. w.now) words.old.items) notes.old.has_control notes.old.place }
        ensures text { self.new.text ≡ self.old.text }
        ensures rest { IsRestOf self.new.text.now self.new.rest.now }
        ensures fit { NumbersFit self.new.number self.new.rest.now }
        ensures number { self.new.number ≡ self.old.number + 1 }
        ensures shorter { length self.new.rest.now < length self.old.rest.now }
        ensures piece { IfOk result (λ goes_on. IsPiece (lines self.old.rest.now) goes_on
            (map (λ w. w.now) words.old.items) (map (λ w. w.now) words.new.items) (lines self.new.rest.now)) }
        ensures noted { OnOk result (IsNoted self.old.text.now (map (λ w. w.now) words.new.items) notes.new.has_control notes.new.place) }
    {
        self.number += 1;
        let mut word = word_end(self.rest);
        'words: while has_blank_at(self.rest, word.end) {
            word = self.next_word(words, notes, word)?;
        }
        self.last_piece(words, notes, word)
    }

    /// Appends the first word of what is left of a line, which a blank ends. Where the next word ends.
    fn next_word(
        &mut self,
        words: &mut Vec<&'t [u8]>,
        notes: &mut Notes,
        word: WordEnd,
    ) -> Result<WordEnd, OutOfMemory>
        requires rest { IsRestOf self.old.text.now self.old.rest.now }
        requires end { IsWordEnd self.old.rest.now word.end word.has_control }
        requires blank { has_blank_at self.old.rest.now word.end ≡ true }
        requires noted { IsNoted self.old.text.now (map (λ w. w.now) words.old.items) notes.old.has_control notes.old.place }
        ensures text { self.new.text ≡ self.old.text }
        ensures number { self.new.number ≡ self.old.number }
        ensures rest { IsRestOf self.new.text.now self.new.rest.now }
        ensures step { IsStep self.old.rest.now self.new.rest.now word.end }
        ensures end { IfOk result (λ next. IsWordEnd self.new.rest.now next.end next.has_control) }
        ensures words { OnOk result (map (λ w. w.now) words.new.items
            ≡ map (λ w. w.now) words.old.items ++ some_piece (take word.end self.old.rest.now)) }
        ensures noted { OnOk result (IsNoted self.old.text.now (map (λ w. w.now) words.new.items) notes.new.has_control notes.new.place) }
    {
        let place = self.place();
        let start = self.rest;
        self.rest = &start[word.end + 1..];
        push_word(words, notes, place, &start[..word.end], word.has_control)?;
        Ok(word_end(self.rest))
    }

    /// The place of the text at which what isn't read yet begins.
    fn place(&self) -> usize
        requires { IsRestOf self.now.text.now self.now.rest.now }
        ensures { result ≡ length self.now.text.now - length self.now.rest.now }
    {
        self.text.len() - self.rest.len()
    }

    /// Appends the last word of a line. Whether the line after it is joined with it.
    fn last_piece(
        &mut self,
        words: &mut Vec<&'t [u8]>,
        notes: &mut Notes,
        word: WordEnd,
    ) -> Result<bool, OutOfMemory>
        requires rest { IsRestOf self.old.text.now self.old.rest.now }
        requires end { IsWordEnd self.old.rest.now word.end word.has_control }
        requires no_blank { has_blank_at self.old.rest.now word.end ≡ false }
        requires noted { IsNoted self.old.text.now (map (λ w. w.now) words.old.items) notes.old.has_control notes.old.place }
        ensures text { self.new.text ≡ self.old.text }
        ensures number { self.new.number ≡ self.old.number }
        ensures rest { IsRestOf self.new.text.now self.new.rest.now }
        ensures behind { self.new.rest.now ≡ behind_line self.old.rest.now }
        ensures joined { IfOk result (λ goes_on. goes_on ≡ line_joined self.old.rest.now) }
        ensures words { OnOk result (map (λ w. w.now) words.new.items ≡ map (λ w. w.now) words.old.items ++ line_words self.old.rest.now) }
        ensures noted { OnOk result (IsNoted self.old.text.now (map (λ w. w.now) words.new.items) notes.new.has_control notes.new.place) }
    {
        let place = self.place();
        let start = self.rest;
        self.rest = behind_line(&start[word.end..]);
        let line = last_line(start, word.end);
        let goes_on = is_joined(line);
        let last = own_part(line);
        push_word(
            words,
            notes,
            place,
            last,
            has_control_in(word.has_control, last),
        )?;
        Ok(goes_on)
    }
}

/// Appends a word, unless it is empty, and notes what is kept of it. The one error is out of memory.
fn push_word<'t>(
    words: &mut Vec<&'t [u8]>,
    notes: &mut Notes,
    place: usize,
    word: &'t [u8],
    has_control: bool,
) -> Result<(), OutOfMemory>
    requires control { has_control ≡ list_any is_control word.now }
    ensures words { OnOk result (map (λ w. w.now) words.new.items ≡ map (λ w. w.now) words.old.items ++ some_piece word.now) }
    ensures noted { (text : List ℕ) → IsNoted text (map (λ w. w.now) words.old.items) notes.old.has_control notes.old.place
        → StandsAt text place word.now
        → OnOk result (IsNoted text (map (λ w. w.now) words.new.items) notes.new.has_control notes.new.place) }
{
    if word.is_empty() {
        return Ok(());
    }
    if words.is_empty() {
        notes.place = place;
    }
    notes.has_control = notes.has_control || has_control;
    words.push(word)?;
    Ok(())
}
