//! Lists in one vector of all their items.
ghost use Rattle.std.specs.Prelude.{◌≡◌, ◌≤◌, ◌<◌, ◌++◌, ◌∷◌, [], IfOk, List, OnOk, Some, length, map, slice_get};
ghost use Rattle.blif_ast.specs.Models.{row_letter};
ghost use Rattle.blif_ast.specs.declared.letter.Letter.{Letter};
ghost use Rattle.network.specs.ListPools.{IsPlaceWithin, list_in};

use blif_ast::Letter;
use dom_base::OutOfMemory;
use std::alloc::Global;
use std::marker::Model;

/// Where a list stands in the vector of all items: where it starts, and how many items it has.
#[derive(Clone, Copy)]
pub struct ListAt {
    pub start: u32,
    pub count: u32,
}

impl ListAt {
    /// The place of so many items behind so many others. The one error is out of memory, where either count is 2^32 or more.
    pub fn behind(start: usize, count: usize) -> Result<ListAt, OutOfMemory>
        ensures start { IfOk result (λ at. at.start ≡ start) }
        ensures count { IfOk result (λ at. at.count ≡ count) }
    {
        match (u32::try_from(start), u32::try_from(count)) {
            (Ok(start), Ok(count)) => Ok(ListAt { start, count }),
            _ => Err(OutOfMemory),
        }
    }

    /// The items that stand at this place.
    pub fn of<T>(self, items: &[T]) -> &[T]
        requires { IsPlaceWithin (length items.now) self }
        ensures { result.now ≡ list_in items.now self }
    {
        let start = self.start as usize;
        &items[start..start + self.count as usize]
    }
}

/// Lists in one vector of all their items.
#[derive(Drop)]
pub struct ListPool<T> {
    items: Vec<T>,
    places: Vec<ListAt>,
}

impl<T> Model for ListPool<T> {
    ghost use Rattle.std.specs.Prelude.{List, length};
    ghost use Rattle.network.specs.ListPools.{ArePlacesWithin, lists_in};

    ghost Value = { List (List T) };

    ghost view = { λ p. lists_in p.items.items p.places.items };

    ghost invariant = { λ p. ArePlacesWithin (length p.items.items) p.places.items };
}

/// Lists that are lent, in one slice of items.
#[derive(Drop)]
pub struct LentLists<'a, T> {
    items: &'a [T],
    places: &'a [ListAt],
}

impl<'a, T> Model for LentLists<'a, T> {
    ghost use Rattle.std.specs.Prelude.{List, length};
    ghost use Rattle.network.specs.ListPools.{ArePlacesWithin, lists_in};

    ghost Value = { List (List T) };

    ghost view = { λ l. lists_in l.items.now l.places.now };

    ghost invariant = { λ l. ArePlacesWithin (length l.items.now) l.places.now };
}

impl<'a, T> LentLists<'a, T> {
    /// How many lists there are.
    pub fn len(&self) -> usize
        ensures { result ≡ length self.now }
    {
        self.places.len()
    }

    /// The list of an index.
    pub fn list(&self, index: usize) -> &'a [T]
        requires { index < length self.now }
        ensures { slice_get self.now index ≡ Some result.now }
    {
        let at = place_at(self.places, index);
        at.of(self.items)
    }
}

fn place_at(places: &[ListAt], index: usize) -> ListAt
    requires { index < length places.now }
    ensures { slice_get places.now index ≡ Some result }
{
    places[index]
}

impl<T: Copy> ListPool<T> {
    /// No lists.
    pub fn new(alloc: Global) -> ListPool<T>
        ensures { result ≡ [] }
    {
        ListPool {
            items: Vec::new(alloc),
            places: Vec::new(alloc),
        }
    }

    /// No lists, with room for so many lists and items. The one error is out of memory.
    pub fn with_capacity(
        alloc: Global,
        lists: usize,
        items: usize,
    ) -> Result<ListPool<T>, OutOfMemory>
        ensures { IfOk result (λ pool. pool ≡ []) }
    {
        Ok(ListPool {
            items: Vec::with_capacity(alloc, items)?,
            places: Vec::with_capacity(alloc, lists)?,
        })
    }

    /// A copy. The one error is out of memory.
    pub fn copy(&self, alloc: Global) -> Result<ListPool<T>, OutOfMemory>
        ensures { IfOk result (λ pool. pool ≡ self.now) }
    {
        let mut items = Vec::with_capacity(alloc, self.items.len())?;
        items.extend_from_slice(self.items.as_slice())?;
        let places = self.places.as_slice().to_vec(alloc)?;
        Ok(ListPool { items, places })
    }

    /// How many lists there are.
    pub fn len(&self) -> usize
        ensures { result ≡ length self.now }
    {
        self.places.len()
    }

    /// Appends a list. The one error is out of memory.
    pub fn push(&mut self, list: &[T]) -> Result<(), OutOfMemory>
        ensures list { OnOk result (self.new ≡ self.old ++ list.now ∷ []) }
        ensures longer { length self.old ≤ length self.new }
    {
        let at = ListAt::behind(self.items.len(), list.len())?;
        self.items.extend_from_slice(list)?;
        self.places.push(at)?;
        Ok(())
    }

    /// The list of an index.
    pub fn list(&self, index: usize) -> &[T]
        requires { index < length self.now }
        ensures { slice_get self.now index ≡ Some result.now }
    {
        let at = self.places[index];
        at.of(self.items.as_slice())
    }

    /// The lists at a place among them.
    pub fn lists(&self, at: ListAt) -> LentLists<'_, T>
        requires { IsPlaceWithin (length self.now) at }
        ensures { result ≡ list_in self.now at }
    {
        LentLists {
            items: self.items.as_slice(),
            places: at.of(self.places.as_slice()),
        }
    }
}

impl ListPool<Letter> {
    /// Appends the row of letters that these bytes are. The one error is out of memory.
    pub fn push_row(&mut self, bytes: &[u8]) -> Result<(), OutOfMemory>
        ensures list { OnOk result (self.new ≡ self.old ++ map row_letter bytes.now ∷ []) }
        ensures longer { length self.old ≤ length self.new }
    {
        let at = ListAt::behind(self.items.len(), bytes.len())?;
        extend_by_letters(&mut self.items, bytes)?;
        self.places.push(at)?;
        Ok(())
    }
}

/// Appends the letters that these bytes are. The one error is out of memory.
fn extend_by_letters(items: &mut Vec<Letter>, bytes: &[u8]) -> Result<(), OutOfMemory>
    ensures items { OnOk result (items.new.items ≡ items.old.items ++ map row_letter bytes.now) }
    ensures kept { (more : List Letter) × (items.new.items ≡ items.old.items ++ more) }
{
    for byte in bytes {
        items.push(Letter::from_byte(*byte))?;
    }
    Ok(())
}
