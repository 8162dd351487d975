//! The numbers of the signals of a file, over the scopes of a walk.
ghost use Rattle.std.specs.Prelude.{◌≡◌, ◌<◌, ◌≢◌, IfOk, OnOk, Some, drop, length, slice_get};
ghost use Rattle.blif_ast.specs.InstanceData.{InstanceData};
ghost use Rattle.numbered_file.specs.Numbered.{file_of};
ghost use Rattle.card_places.specs.CardPlaces.{AreCardPlaces};
ghost use Rattle.local_names.specs.LocalNames.{AreLocalNames};
ghost use Rattle.numbered_signals.specs.ScopeBlocks.{AddsBelow, ArePairs, IsCalledAbove, IsNextCalled};
ghost use Rattle.numbered_signals.specs.ScopeRoots.{names_of_model, signals_with};
ghost use Rattle.part_numbers.specs.SignalNumbers.{AddsScope, HasFewPairs, HasSignalNumbers, IsInstanceAt, IsNextScope};
ghost use Rattle.part_numbers.specs.declared.walk.Scope.{Scope};

use crate::roots::ScopeRoots;
use card_places::CardPlaces;
use dom_base::OutOfMemory;
use local_names::LocalNames;
use numbered_file::NumberedFile;
use part_numbers::Scope;
use std::alloc::Global;

fn scope_at(scopes: &[Scope], index: usize) -> Scope
    requires { index < length scopes.now }
    ensures { slice_get scopes.now index ≡ Some result }
{
    scopes[index]
}

/// The words of an instance behind the first, which is the name of its model.
fn behind_first(words: &[u32]) -> &[u32]
    ensures { result.now ≡ drop 1 words.now }
{
    match words {
        [_, pairs @ ..] => pairs,
        [] => words,
    }
}

/// What the instance of a scope binds, as pairs of a formal and an actual, each by its place among the names of its model.
fn pairs_above<'l>(
    file: &NumberedFile<'_>,
    places: &CardPlaces,
    names: &'l LocalNames,
    scopes: &[Scope],
    scope: Scope,
) -> &'l [u32]
    requires places { AreCardPlaces file.now places.now }
    requires names { AreLocalNames file.now names.now }
    requires called { IsCalledAbove (file_of file.now) scopes.now scope }
    ensures { (above : Scope) (i : InstanceData) → IsInstanceAt (file_of file.now) scopes.now scope above i
        → ArePairs (names_of_model file.now scope.model) (names_of_model file.now above.model) i.bindings result.now }
{
    let above = scope_at(scopes, scope.above);
    let place = places.instance(above.model, scope.instance);
    behind_first(file.of_part(names.words(), place as usize))
}

/// Appends the numbers of the names of a scope that is below one of those before it.
fn add_below(
    roots: &mut ScopeRoots,
    file: &NumberedFile<'_>,
    places: &CardPlaces,
    names: &LocalNames,
    scopes: &[Scope],
    scope: Scope,
) -> Result<(), OutOfMemory>
    requires places { AreCardPlaces file.now places.now }
    requires names { AreLocalNames file.now names.now }
    requires next { IsNextScope (file_of file.now) scopes.now scope (signals_with file.now roots.old) }
    requires called { IsCalledAbove (file_of file.now) scopes.now scope }
    requires some { length roots.old.starts ≢ 0 }
    ensures { OnOk result (AddsBelow (file_of file.now) scopes.now scope (signals_with file.now roots.old) roots.old roots.new) }
{
    let start = roots.len();
    roots.push_own(names.count(scope.model as usize))?;
    let pairs = pairs_above(file, places, names, scopes, scope);
    roots.bind_all(start, scope.above, pairs);
    Ok(())
}

/// Gives numbers to the names of one more scope, which is below one of those before it, or the first.
fn add_scope(
    roots: &mut ScopeRoots,
    file: &NumberedFile<'_>,
    places: &CardPlaces,
    names: &LocalNames,
    scopes: &[Scope],
    scope: Scope,
) -> Result<(), OutOfMemory>
    requires places { AreCardPlaces file.now places.now }
    requires names { AreLocalNames file.now names.now }
    requires next { IsNextCalled (file_of file.now) scopes.now scope (signals_with file.now roots.old) }
    ensures { OnOk result (AddsScope (file_of file.now) scopes.now scope (signals_with file.now roots.old)
        (signals_with file.now roots.new)) }
{
    let start = roots.len();
    if roots.is_empty() {
        roots.push_own(names.count(scope.model as usize))?;
    } else {
        add_below(roots, file, places, names, scopes, scope)?;
    }
    roots.push_start(start)
}

/// The numbers of the names in all scopes of a walk over a file. It fails only for want of memory.
pub fn number_scopes(
    alloc: Global,
    file: &NumberedFile<'_>,
    places: &CardPlaces,
    names: &LocalNames,
    scopes: &[Scope],
) -> Result<ScopeRoots, OutOfMemory>
    requires places { AreCardPlaces file.now places.now }
    requires names { AreLocalNames file.now names.now }
    requires few { HasFewPairs (file_of file.now) scopes.now }
    ensures { IfOk result (λ roots. HasSignalNumbers (file_of file.now) scopes.now (signals_with file.now roots)) }
{
    let mut roots = ScopeRoots::new(alloc);
    for scope in scopes {
        add_scope(&mut roots, file, places, names, scopes, *scope)?;
    }
    Ok(roots)
}
