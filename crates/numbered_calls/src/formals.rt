//! The ports of models, and the formals that instances bind.
ghost use Rattle.std.specs.Prelude.{◌≡◌, ◌<◌, ◌+◌, ◌^◌, ℕ, IfNone, IfOk, IfSome, IsFalse, IsTrue, Some, length, slice_get};
ghost use Rattle.local_names.specs.LocalNames.{IsInstance};
ghost use Rattle.numbered_calls.specs.BoundFormals.{AreBoundBelow, HaveBadBinding, HavePortMarks, HavePortTwice, IsBadlyBoundAt, IsBoundAt};

use crate::port_marks::PortMarks;
use crate::unit_numbers::is_instance;
use dom_base::OutOfMemory;
use local_names::LocalNames;
use numbered_file::NumberedFile;
use std::alloc::Global;

/// The first mark of the formals of an instance: those below are for ports.
const FIRST: u32 = 3;

/// More than the parts of a file whose instances have a mark each.
const MOST: usize = 4_294_967_292;

/// The marks of the ports of each model; `None` where a model has an input or an output twice. It fails only for want of memory.
pub fn marks_of_ports(
    alloc: Global,
    file: &NumberedFile<'_>,
    names: &LocalNames,
) -> Result<Option<Vec<PortMarks>>, OutOfMemory>
    ensures marks { IfOk result (λ found. IfSome found (λ marks. HavePortMarks file.now names.now 3 marks.items)) }
    ensures twice { IfOk result (λ found. IfNone found (HavePortTwice file.now names.now)) }
{
    let count = file.models().len();
    let mut marks = Vec::with_capacity(alloc, count)?;
    for model in 0..count {
        let inputs = file.of_inputs(names.inputs(), model);
        let outputs = file.of_outputs(names.outputs(), model);
        let size = names.count(model);
        let Some(row) = PortMarks::new(alloc, size, inputs, outputs)? else {
            return Ok(None);
        };
        marks.push(row)?;
    }
    Ok(Some(marks))
}

/// Whether all instances bind ports of their models alone, none twice, and each input. The marks are those of the ports. It takes a
/// time that is linear in the parts of the file and the words of its instances. It fails only where there are more parts than marks.
pub fn are_bound(
    file: &NumberedFile<'_>,
    names: &LocalNames,
    units: &[u32],
    marks: &mut Vec<PortMarks>,
) -> Result<bool, OutOfMemory>
    requires count { length units.now ≡ length file.now.parts }
    requires ports { HavePortMarks file.now names.now 3 marks.old.items }
    ensures bound { IfOk result (λ all. IsTrue all → AreBoundBelow file.now names.now units.now (length file.now.parts)) }
    ensures bad { IfOk result (λ all. IsFalse all → HaveBadBinding file.now names.now units.now) }
{
    let count = file.parts().len();
    if MOST < count {
        return Err(OutOfMemory);
    }
    for index in 0..count {
        if !is_bound(file, names, units, marks, index) {
            return Ok(false);
        }
    }
    Ok(true)
}

/// The same of the part at a place, if it is an instance.
fn is_bound(
    file: &NumberedFile<'_>,
    names: &LocalNames,
    units: &[u32],
    marks: &mut Vec<PortMarks>,
    index: usize,
) -> bool
    requires count { length units.now ≡ length file.now.parts }
    requires within { index < length file.now.parts }
    requires few { index + 4 < 2 ^ 32 }
    requires ports { HavePortMarks file.now names.now (index + 3) marks.old.items }
    ensures ports { IsTrue result → HavePortMarks file.now names.now (index + 4) marks.new.items }
    ensures bound { IsTrue result → (unit : ℕ) → slice_get units.now index ≡ Some unit → IsInstance file.now index
        → IsBoundAt file.now names.now unit index }
    ensures bad { IsFalse result → HaveBadBinding file.now names.now units.now }
{
    if !is_instance(file.parts(), index) {
        return true;
    }
    bind(file, names, units[index], marks, index)
}

/// The same of an instance of this model.
fn bind(
    file: &NumberedFile<'_>,
    names: &LocalNames,
    unit: u32,
    marks: &mut Vec<PortMarks>,
    index: usize,
) -> bool
    requires few { index + 4 < 2 ^ 32 }
    requires ports { HavePortMarks file.now names.now (index + 3) marks.old.items }
    ensures ports { IsTrue result → HavePortMarks file.now names.now (index + 4) marks.new.items }
    ensures bound { IsTrue result → IsBoundAt file.now names.now unit index }
    ensures bad { IsFalse result → IsBadlyBoundAt file.now names.now unit index }
{
    let unit = unit as usize;
    if marks.len() <= unit {
        return false;
    }
    let words = file.of_part(names.words(), index);
    let inputs = file.of_inputs(names.inputs(), unit);
    marks[unit].bind(words, inputs, index as u32 + FIRST)
}
