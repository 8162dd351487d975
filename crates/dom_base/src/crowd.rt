//! How crowded the names of a table are.
use crate::{NameHash, OutOfMemory};
use std::alloc::Global;
use std::hash::{BuildHasher, Hash};

/// So many new names are counted at once: so few are found fast even where they all meet in one place.
const BATCH: usize = 256;

/// How many tags there are, and how many homes in a row.
const ROW: usize = 256;

/// The most names of one home, and the most names of one tag in a row.
const MOST_ALIKE: u8 = 48;

/// The most names in a row.
const MOST_IN_ROW: u16 = 9 * 256 + 8 * 48;

/// How the names of a table are to be hashed, and how crowded they are under the fast hash, which whoever chooses them knows.
///
/// A table finds a name by 32 bits of its hash: the lowest say its home, a group of twelve places of which nine are full at
/// most on average; the highest eight are its tag, by which alone the places of a group are told apart before names are
/// compared; and where a group is full, the next one has the name. So names are crowded where many have one home, where many
/// in a row of groups have one tag, or where a row has more than it holds. Each name of the table is counted once, in three
/// grids of at least an eighth as many homes as there are names, and 256 homes in a row: 48 at a home, 48 with a tag in a row
/// and 9 * 256 + 8 * 48 in a row are the most. Eight at a home, eight with a tag and 2048 in a row are the average at most, so
/// names that are drawn fail in one of 10^12 tables, and names that are chosen and pass cost a small factor. Fewer than
/// 256 names are not counted.
#[derive(Drop)]
pub struct Crowd {
    hash: NameHash,
    is_crowded: bool,
    due: usize,
    counted: usize,
    room: usize,
    homes: Vec<u8>,
    tags: Vec<u8>,
    rows: Vec<u16>,
}

impl Crowd {
    /// For tables whose names are hashed so. Names that are hashed with a key are not counted.
    pub fn new(alloc: Global, hash: NameHash) -> Crowd {
        Crowd {
            hash,
            is_crowded: false,
            due: BATCH,
            counted: 0,
            room: 0,
            homes: Vec::new(alloc),
            tags: Vec::new(alloc),
            rows: Vec::new(alloc),
        }
    }

    /// How the names are hashed.
    pub fn hash(&self) -> NameHash {
        self.hash
    }

    /// Whether so many names met that they are to be hashed with a key.
    pub fn is_crowded(&self) -> bool {
        self.is_crowded
    }

    /// Begins with another table.
    pub fn begin_anew(&mut self) {
        self.due = BATCH;
        self.counted = 0;
        self.room = 0;
    }

    /// Looks at the names of the table, to which some may have been added since the last time. An error says that memory
    /// did not suffice, or that the names are crowded: then `is_crowded` says so.
    pub fn look_at<T: Hash>(&mut self, names: &[T]) -> Result<(), OutOfMemory> {
        if names.len() < self.due {
            return Ok(());
        }
        self.count_all(names)
    }

    /// Counts the names that were not counted yet. Where there is no room for them, all are counted anew.
    fn count_all<T: Hash>(&mut self, names: &[T]) -> Result<(), OutOfMemory> {
        if let NameHash::Keyed(..) = self.hash {
            return Ok(());
        }
        if self.room < names.len() {
            self.make_room(names.len())?;
            self.counted = 0;
        }
        for index in self.counted..names.len() {
            self.count(&names[index]);
        }
        self.counted = names.len();
        self.due = names.len().saturating_add(BATCH);
        if self.is_crowded {
            return Err(OutOfMemory);
        }
        Ok(())
    }

    /// Makes room for so many names, or for none where they are few. None are counted then.
    pub fn make_room(&mut self, names: usize) -> Result<(), OutOfMemory> {
        self.homes.clear();
        self.tags.clear();
        self.rows.clear();
        if names < BATCH {
            return Ok(());
        }
        let homes = (names / 4)
            .checked_next_power_of_two()
            .unwrap_or(ROW)
            .max(ROW);
        self.homes.resize(homes, 0)?;
        self.tags.resize(homes, 0)?;
        self.rows.resize(homes / ROW, 0)?;
        self.room = homes.saturating_mul(8);
        Ok(())
    }

    /// Counts a name.
    pub fn count<T: Hash>(&mut self, name: &T) {
        let hash = self.hash.hash_one(name);
        let place = ((hash ^ (hash >> 32)) & 0xFFFF_FFFF) as usize;
        let home = place & self.homes.len().saturating_sub(1);
        let row = home / ROW;
        let tag = row.saturating_mul(ROW) | (place >> 24);
        let crowded_home = is_full(&mut self.homes, home);
        let crowded_tag = is_full(&mut self.tags, tag);
        let crowded_row = is_row_full(&mut self.rows, row);
        if crowded_home || crowded_tag || crowded_row {
            self.is_crowded = true;
        }
    }
}

/// Counts one more here. It says whether as many as can be were counted before.
fn is_full(cells: &mut [u8], at: usize) -> bool {
    match cells.get_mut(at) {
        Some(cell) if *cell < MOST_ALIKE => {
            *cell += 1;
            false
        }
        Some(_) => true,
        None => false,
    }
}

/// Counts one more in this row. It says whether as many as can be were counted before.
fn is_row_full(rows: &mut [u16], at: usize) -> bool {
    match rows.get_mut(at) {
        Some(row) if *row < MOST_IN_ROW => {
            *row += 1;
            false
        }
        Some(_) => true,
        None => false,
    }
}
