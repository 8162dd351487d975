//! Marks of the ports of a model, by their places among its names.
ghost use Rattle.std.specs.Prelude.{
  ◌≡◌,
  ◌≢◌,
  ◌<◌,
  ◌+◌,
  ◌⊎◌,
  ℕ,
  List,
  Contains,
  IfNone,
  IfOk,
  IfSome,
  IsFalse,
  IsTrue,
  Some,
  drop,
  length,
  slice_get,
};
ghost use Rattle.std.specs.List.{AllByRecursion};
ghost use Rattle.local_names.specs.LocalNames.{firsts};
ghost use Rattle.numbered_calls.specs.PortMarks.{
  AreBadlyBound,
  AreBarred,
  AreBound,
  AreMarked,
  ArePortMarks,
  ArePorts,
  AreTwice,
  IsBarred,
  IsMarked,
};

use dom_base::OutOfMemory;
use std::alloc::Global;
use std::marker::Model;

const INPUT: u32 = 1;

const OUTPUT: u32 = 2;

/// A mark for each name of a model, by its place among them: 0 for one that is no port.
#[derive(Drop)]
pub struct PortMarks {
    marks: Vec<u32>,
}

impl Model for PortMarks {
    ghost use Rattle.std.specs.Prelude.{List, ℕ};

    ghost Value = { List ℕ };

    ghost view = { λ p. p.marks.items };
}

impl PortMarks {
    /// The marks of a model with so many names, where its inputs and its outputs are these; `None` where one of them is there twice.
    /// It fails only for want of memory.
    pub fn new(
        alloc: Global,
        count: usize,
        inputs: &[u32],
        outputs: &[u32],
    ) -> Result<Option<PortMarks>, OutOfMemory>
        ensures count { IfOk result (λ found. IfSome found (λ marks. length marks ≡ count)) }
        ensures ports { IfOk result (λ found. IfSome found (λ marks. ArePorts inputs.now outputs.now 3 marks)) }
        ensures twice { IfOk result (λ found. IfNone found (AreTwice count inputs.now ⊎ AreTwice count outputs.now)) }
    {
        let mut marks = PortMarks {
            marks: vec![in alloc; 0u32; count]?,
        };
        let inputs_differ = marks.mark_all(inputs, INPUT);
        if !inputs_differ {
            return Ok(None);
        }
        let outputs_differ = marks.mark_all(outputs, OUTPUT);
        if !outputs_differ {
            return Ok(None);
        }
        Ok(Some(marks))
    }

    /// Gives places a mark, until one has it.
    fn mark_all(&mut self, places: &[u32], mark: u32) -> bool
        ensures marked { IsTrue result → AreMarked self.old places.now mark mark self.new }
        ensures barred { IsFalse result → AreBarred self.old places.now mark mark }
    {
        for place in places {
            if !self.mark(*place, mark, mark) {
                return false;
            }
        }
        true
    }

    /// Gives a place a mark, unless it is beyond the names or has it, or has the other one.
    fn mark(&mut self, place: u32, mark: u32, other: u32) -> bool
        ensures marked { IsTrue result → IsMarked self.old place mark other self.new }
        ensures barred { IsFalse result → IsBarred self.old place mark other }
    {
        let place = place as usize;
        if self.marks.len() <= place {
            return false;
        }
        let old = self.marks[place];
        if old == mark || old == other {
            return false;
        }
        self.marks[place] = mark;
        true
    }

    /// Whether an instance with these words, the places of its names, binds ports of the model alone, none twice, and each of the
    /// model's inputs. The marks are below this one.
    pub fn bind(&mut self, words: &[u32], inputs: &[u32], mark: u32) -> bool
        ensures count { IsTrue result → length self.new ≡ length self.old }
        ensures marks { IsTrue result → (ports : List ℕ) → ArePortMarks ports mark self.old → ArePortMarks ports (mark + 1) self.new }
        ensures bound { IsTrue result → (ports : List ℕ) → ArePortMarks ports mark self.old
            → AreBound inputs.now ports (firsts (drop 1 words.now)) }
        ensures bad { IsFalse result → (ports : List ℕ) → ArePortMarks ports mark self.old
            → AreBadlyBound (length self.old) inputs.now ports (firsts (drop 1 words.now)) }
    {
        self.mark_formals(words, mark) && self.has_all(inputs, mark)
    }

    /// Gives the formals a mark, until one has it or is no port.
    fn mark_formals(&mut self, words: &[u32], mark: u32) -> bool
        ensures marked { IsTrue result → AreMarked self.old (firsts (drop 1 words.now)) mark 0 self.new }
        ensures barred { IsFalse result → AreBarred self.old (firsts (drop 1 words.now)) mark 0 }
    {
        let mut at = 1;
        'formals: while at + 1 < words.len() {
            if !self.mark(words[at], mark, 0) {
                return false;
            }
            at += 2;
        }
        true
    }

    /// Whether all these places have a mark.
    fn has_all(&self, places: &[u32], mark: u32) -> bool
        ensures all { IsTrue result → AllByRecursion (λ place. slice_get self.now place ≡ Some mark) places.now }
        ensures none { IsFalse result → (place : ℕ) × Contains places.now place × (slice_get self.now place ≢ Some mark) }
    {
        for place in places {
            if !self.has(*place, mark) {
                return false;
            }
        }
        true
    }

    /// Whether a place has a mark.
    fn has(&self, place: u32, mark: u32) -> bool
        ensures here { IsTrue result → slice_get self.now place ≡ Some mark }
        ensures not_here { IsFalse result → slice_get self.now place ≢ Some mark }
    {
        self.marks.get(place as usize).copied() == Some(mark)
    }
}
