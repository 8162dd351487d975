//! Groups of devices as calls of cells.
ghost use Rattle.std.specs.Prelude.{◌≡◌, ◌≤◌, ◌<◌, ◌++◌, ◌∷◌, [], IfOk, OnOk, codes, length};
ghost use Rattle.std.specs.Fmt.{decimal};
ghost use Rattle.deck.specs.Nets.{net_number, with_net};
ghost use Rattle.plan_text.specs.CalledTexts.{GroupTextData, no_groups, with_group_devices, with_group_end};
ghost use Rattle.plan_text.specs.Nets.{net_text};
ghost use Rattle.spice_text.specs.Cells.{cell_name, supplies};

use crate::buffered::BufferedText;
use crate::name_list::NameList;
use crate::net::{Net, append_net};
use crate::short::short_slice;
use deck::Device;
use dom_base::{Kind, NameHash, OutOfMemory};
use spice_text::{Shape, ShapeSet, number_shape};
use std::alloc::Global;
use std::marker::Model;

/// Groups of devices that are written by their cells: the shapes of the groups that ended, their calls, and how many there
/// are; and the names and the devices, by these, of the group that is being made. A name that is no short text is written
/// out before it is looked for.
#[derive(Drop)]
pub struct GroupText {
    names: NameList,
    written: Vec<u8>,
    shape: Shape,
    shapes: ShapeSet,
    calls: BufferedText,
    count: u64,
}

impl Model for GroupText {
    ghost use Rattle.std.specs.Prelude.{◌≤◌, length};
    ghost use Rattle.plan_text.specs.CalledTexts.{GroupTextData, bare_cell};

    ghost Value = { GroupTextData };

    ghost view = { λ g. record {
      cell = record bare_cell { nets = g.names; devices = g.shape };
      shapes = g.shapes.keys;
      calls = g.calls;
      count = g.count;
    } };

    // each call has a byte
    ghost invariant = { λ g. g.count ≤ length g.calls };
}

/// The shapes of groups, each once, and the calls of their cells.
#[derive(Drop)]
pub struct GroupCalls {
    pub shapes: ShapeSet,
    pub calls: BufferedText,
}

/// Makes the supplies the only names.
fn begin_names(names: &mut NameList) -> Result<(), OutOfMemory>
    ensures { OnOk result (names.new ≡ supplies) }
{
    names.clear();
    names.number(b"vdd")?;
    names.number(b"vss")?;
    Ok(())
}

/// The number of a net by its name, which is added at the end where it is new. The one error is out of memory.
#[inline(always)]
fn number_net(
    names: &mut NameList,
    written: &mut Vec<u8>,
    net: &Net<'_>,
) -> Result<u32, OutOfMemory>
    ensures number { IfOk result (λ number. number ≡ net_number names.old (net_text net.now)) }
    ensures names { OnOk result (names.new ≡ with_net names.old (net_text net.now)) }
{
    match net {
        Net::Short(name) => names.number(short_slice(name)),
        Net::Named(name) => names.number(name),
        net => {
            written.clear();
            append_net(written, net)?;
            names.number(written.as_slice())
        }
    }
}

impl GroupText {
    /// No groups.
    pub fn new(alloc: Global) -> Result<GroupText, OutOfMemory>
        ensures { IfOk result (λ g. g ≡ no_groups) }
    {
        let mut names = NameList::new(alloc);
        begin_names(&mut names)?;
        Ok(GroupText {
            names,
            written: Vec::new(alloc),
            shape: Shape::new(alloc),
            shapes: ShapeSet::with_hasher(alloc, NameHash::known()),
            calls: BufferedText::new(Vec::new(alloc)),
            count: 0,
        })
    }

    /// Adds a device to the group. The one error is out of memory.
    pub fn put(
        &mut self,
        kind: Kind,
        drain: Net<'_>,
        gate: Net<'_>,
        source: Net<'_>,
    ) -> Result<(), OutOfMemory>
        ensures { OnOk result (self.new ≡ with_group_devices self.old
            (record { kind = kind; drain = net_text drain.entry; gate = net_text gate.entry; source = net_text source.entry } ∷ [])) }
    {
        let drain = number_net(&mut self.names, &mut self.written, &drain)?;
        let gate = number_net(&mut self.names, &mut self.written, &gate)?;
        let source = number_net(&mut self.names, &mut self.written, &source)?;
        self.shape.push(Device {
            kind,
            drain,
            gate,
            source,
        })
    }

    /// Ends the group: its cell is called. The one error is out of memory.
    pub fn end_group(&mut self) -> Result<(), OutOfMemory>
        ensures { OnOk result (self.new ≡ with_group_end self.old) }
    {
        let number = number_shape(&mut self.shapes, &self.shape)?;
        put_call(&mut self.calls, self.count, self.names.words(), number)?;
        let _length = self.calls.len();
        self.count += 1;
        self.shape.clear();
        begin_names(&mut self.names)
    }

    /// The shapes and the calls.
    pub fn into_calls(self) -> GroupCalls
        ensures shapes { result.shapes.keys ≡ self.shapes }
        ensures calls { result.calls ≡ self.calls }
    {
        let GroupText {
            names: _,
            written: _,
            shape: _,
            shapes,
            calls,
            count: _,
        } = self;
        GroupCalls { shapes, calls }
    }
}

/// Appends the call of a cell, by the numbers of the group and of its shape, with these words for its nets.
fn put_call(
    calls: &mut BufferedText,
    index: u64,
    words: &[u8],
    number: usize,
) -> Result<(), OutOfMemory>
    ensures call { OnOk result (calls.new ≡ calls.old ++ (codes "x" ++ decimal index) ++ words.now ++ 32 ∷ cell_name number ++ 10 ∷ []) }
    ensures longer { OnOk result (length calls.old < length calls.new) }
    ensures no_shorter { length calls.old ≤ length calls.new }
{
    calls.put(b"x")?;
    calls.put_number(index)?;
    calls.put(words)?;
    calls.put(b" cell-")?;
    calls.put_number(number as u64)?;
    calls.put(b"\n")
}
