//! A hash with a key out of all names of a file.
use blif_ast::{Binding, BlifModel, Control, Instance, Latch, Table};
use dom_base::{Name, NameDigest, NameHash, OutOfMemory};
use std::alloc::Global;

/// A hash with a key for the names of these models. The one error is out of memory.
pub fn hash_of_names(alloc: Global, models: &[BlifModel]) -> Result<NameHash, OutOfMemory> {
    let mut digest = NameDigest::new(alloc);
    for model in models {
        add_model(&mut digest, model)?;
    }
    Ok(digest.hash())
}

fn add_model<'a>(digest: &mut NameDigest<'a>, model: &'a BlifModel) -> Result<(), OutOfMemory> {
    digest.add(model.name.as_bytes())?;
    add_names(digest, &model.inputs)?;
    add_names(digest, &model.outputs)?;
    add_tables(digest, &model.tables)?;
    add_latches(digest, &model.latches)?;
    add_instances(digest, &model.instances)
}

fn add_names<'a>(digest: &mut NameDigest<'a>, names: &'a [Name]) -> Result<(), OutOfMemory> {
    for name in names {
        digest.add(name.as_bytes())?;
    }
    Ok(())
}

fn add_tables<'a>(digest: &mut NameDigest<'a>, tables: &'a [Table]) -> Result<(), OutOfMemory> {
    for table in tables {
        add_names(digest, &table.inputs)?;
        digest.add(table.output.as_bytes())?;
    }
    Ok(())
}

fn add_latches<'a>(digest: &mut NameDigest<'a>, latches: &'a [Latch]) -> Result<(), OutOfMemory> {
    for latch in latches {
        digest.add(latch.input.as_bytes())?;
        digest.add(latch.output.as_bytes())?;
        add_signal(digest, &latch.control)?;
    }
    Ok(())
}

fn add_signal<'a>(
    digest: &mut NameDigest<'a>,
    control: &'a Option<Control>,
) -> Result<(), OutOfMemory> {
    if let Some(control) = control {
        if let Some(signal) = &control.signal {
            digest.add(signal.as_bytes())?;
        }
    }
    Ok(())
}

fn add_instances<'a>(
    digest: &mut NameDigest<'a>,
    instances: &'a [Instance],
) -> Result<(), OutOfMemory> {
    for instance in instances {
        digest.add(instance.unit.as_bytes())?;
        add_bindings(digest, &instance.bindings)?;
    }
    Ok(())
}

fn add_bindings<'a>(
    digest: &mut NameDigest<'a>,
    bindings: &'a [Binding],
) -> Result<(), OutOfMemory> {
    for binding in bindings {
        digest.add(binding.formal.as_bytes())?;
        digest.add(binding.actual.as_bytes())?;
    }
    Ok(())
}
