//! Hashes for the names of a file: fast where they are not crowded, else with keys out of all that are hashed.
use blif_ast::{Binding, BlifModel};
use dom_base::{Crowd, Name, NameDigest, NameHash, OutOfMemory};
use std::alloc::Global;

/// Fewer names than this are found fast even where they meet in one slot.
const FEW: usize = 1024;

/// No names yet, of so many that are counted.
fn crowd_of(alloc: Global, names: usize) -> Result<Crowd, OutOfMemory> {
    let mut crowd = Crowd::new(alloc, NameHash::known());
    crowd.make_room(names)?;
    Ok(crowd)
}

fn count_names(crowd: &mut Crowd, names: &[Name]) {
    for name in names {
        crowd.count(name);
    }
}

fn digest_names<'a>(digest: &mut NameDigest<'a>, names: &'a [Name]) -> Result<(), OutOfMemory> {
    for name in names {
        digest.add(name.as_bytes())?;
    }
    Ok(())
}

/// A hash for the names of these lists. The one error is want of memory.
pub fn hash_of_lists(
    alloc: Global,
    first: &[Name],
    second: &[Name],
) -> Result<NameHash, OutOfMemory> {
    if first.len() < FEW && second.len() < FEW {
        return Ok(NameHash::known());
    }
    let mut crowd = crowd_of(alloc, first.len().saturating_add(second.len()))?;
    count_names(&mut crowd, first);
    count_names(&mut crowd, second);
    if !crowd.is_crowded() {
        return Ok(crowd.hash());
    }
    let mut digest = NameDigest::new(alloc);
    digest_names(&mut digest, first)?;
    digest_names(&mut digest, second)?;
    Ok(digest.hash())
}

/// A hash for the names of these models. The one error is want of memory.
pub fn hash_of_models(alloc: Global, models: &[BlifModel]) -> Result<NameHash, OutOfMemory> {
    if models.len() < FEW {
        return Ok(NameHash::known());
    }
    let mut crowd = crowd_of(alloc, models.len())?;
    for model in models {
        crowd.count(&model.name);
    }
    if !crowd.is_crowded() {
        return Ok(crowd.hash());
    }
    let mut digest = NameDigest::new(alloc);
    for model in models {
        digest.add(model.name.as_bytes())?;
    }
    Ok(digest.hash())
}

/// A hash for the formals of these bindings. The one error is want of memory.
pub fn hash_of_formals(alloc: Global, bindings: &[Binding]) -> Result<NameHash, OutOfMemory> {
    if bindings.len() < FEW {
        return Ok(NameHash::known());
    }
    let mut crowd = crowd_of(alloc, bindings.len())?;
    for binding in bindings {
        crowd.count(&binding.formal);
    }
    if !crowd.is_crowded() {
        return Ok(crowd.hash());
    }
    let mut digest = NameDigest::new(alloc);
    for binding in bindings {
        digest.add(binding.formal.as_bytes())?;
    }
    Ok(digest.hash())
}
