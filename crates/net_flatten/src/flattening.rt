//! The network of a file of BLIF, or what refuses the file.
ghost use Rattle.std.specs.Prelude.{ℕ, ◌≡◌, ◌≤◌, List, IfNone, IfOk, IfSome, IsErrOf, IsTrue, OnOk, length};
ghost use Rattle.blif_ast.specs.Good.{IsGoodFile};
ghost use Rattle.numbered_file.specs.Numbered.{file_of, models_in};
ghost use Rattle.numbered_file.specs.Places.{first_part};
ghost use Rattle.card_places.specs.CardPlaces.{AreCardPlaces};
ghost use Rattle.local_names.specs.LocalNames.{AreLocalNames};
ghost use Rattle.model_calls.specs.Counts.{signal_count};
ghost use Rattle.model_calls.specs.ModelCalls.{AreModelCalls, HavePlans, NothingRefuses};
ghost use Rattle.model_calls.specs.declared.fault.FlatKind.{FlatKind};
ghost use Rattle.model_calls.specs.declared.fault.Limit.{Limit};
ghost use Rattle.model_calls.specs.Refusal.{At, TooMany};
ghost use Rattle.model_calls.specs.Refusals.{IsRefusal};
ghost use Rattle.net_flatten.specs.Flattening.{IsNetworkOf};
ghost use Rattle.net_flatten.specs.Unrefused.{HasNoRefusal};
ghost use Rattle.network.specs.Limits.{most_signals};
ghost use Rattle.part_numbers.specs.NetworkSizes.{IsSizeCheck};

use crate::building::network_of;
use crate::called::called_file;
use crate::signal_checks::check_signals;
use blif_ast::BlifFile;
use card_places::{CardPlaces, plans};
use file_copies::{bytes_of, number_file, to_file};
use local_names::{LocalNames, check_counts};
use model_calls::{FlatFault, ModelCalls, Plan, file_calls};
use network::Network;
use numbered_file::NumberedFile;
use numbered_signals::number;
use part_numbers::CardFile;
use std::alloc::Global;

/// How many bytes a list may take whose room is kept when it is given back.
const KEPT_ROOM: usize = 8 * 1024 * 1024;

/// The network of a good file, or its refusal. What can refuse a file is looked for in order, each
/// over the whole file: models, ports, instances, formals and recursion first, then the counts, of
/// which nothing is expanded, and then drivers, readers, loops and the control of the latches. The
/// one other error is want of memory.
pub fn flatten(alloc: Global, file: &BlifFile) -> Result<Network, FlatFault>
    requires good { IsGoodFile file.now }
    ensures network { IfOk result (IsNetworkOf file.now) }
    ensures refused { (line : ℕ) (kind : FlatKind) (name : List ℕ) → IsErrOf result (FlatFault.At line kind name)
        → IsRefusal file.now (At kind line name) }
    ensures too_many { (limit : Limit) (count : ℕ) → IsErrOf result (FlatFault.TooMany limit count)
        → IsRefusal file.now (TooMany limit count) }
{
    let bytes = bytes_of(alloc, file)?;
    let numbered = number_file(alloc, file, &bytes)?;
    flatten_closed(alloc, &numbered)
}

/// The network of a good file by numbers, or its refusal, as `flatten` gives it of the file that it stands for. Where parts
/// stand behind the last model, which they do where no text was read, that file is made.
pub fn flatten_numbers(alloc: Global, file: &NumberedFile<'_>) -> Result<Network, FlatFault>
    requires good { IsGoodFile (file_of file.now) }
    ensures network { IfOk result (IsNetworkOf (file_of file.now)) }
    ensures refused { (line : ℕ) (kind : FlatKind) (name : List ℕ) → IsErrOf result (FlatFault.At line kind name)
        → IsRefusal (file_of file.now) (At kind line name) }
    ensures too_many { (limit : Limit) (count : ℕ) → IsErrOf result (FlatFault.TooMany limit count)
        → IsRefusal (file_of file.now) (TooMany limit count) }
{
    if is_closed(file) {
        return flatten_closed(alloc, file);
    }
    let copy = to_file(alloc, file)?;
    flatten(alloc, &copy)
}

/// Whether no part stands behind the last model.
fn is_closed(file: &NumberedFile<'_>) -> bool
    ensures { IsTrue result → first_part file.now (length file.now.models) ≡ length file.now.parts }
{
    file.first_part(file.models().len()) == file.parts().len()
}

/// The same where no part stands behind the last model.
fn flatten_closed(alloc: Global, file: &NumberedFile<'_>) -> Result<Network, FlatFault>
    requires good { IsGoodFile (file_of file.now) }
    requires closed { first_part file.now (length file.now.models) ≡ length file.now.parts }
    ensures network { IfOk result (IsNetworkOf (file_of file.now)) }
    ensures refused { (line : ℕ) (kind : FlatKind) (name : List ℕ) → IsErrOf result (FlatFault.At line kind name)
        → IsRefusal (file_of file.now) (At kind line name) }
    ensures too_many { (limit : Limit) (count : ℕ) → IsErrOf result (FlatFault.TooMany limit count)
        → IsRefusal (file_of file.now) (TooMany limit count) }
{
    match flatten_known(alloc, file)? {
        Some(network) => Ok(network),
        None => refuse(alloc, file),
    }
}

/// The refusal of a file for what is wrong with its models.
fn refuse(alloc: Global, file: &NumberedFile<'_>) -> Result<Network, FlatFault>
    requires good { IsGoodFile (file_of file.now) }
    requires refused { NothingRefuses (file_of file.now) 5 → ⊥ }
    ensures network { IfOk result (IsNetworkOf (file_of file.now)) }
    ensures refused { (line : ℕ) (kind : FlatKind) (name : List ℕ) → IsErrOf result (FlatFault.At line kind name)
        → IsRefusal (file_of file.now) (At kind line name) }
    ensures no_count { (limit : Limit) (count : ℕ) → IsErrOf result (FlatFault.TooMany limit count) → ⊥ }
{
    let copy = to_file(alloc, file)?;
    match file_calls(alloc, &copy) {
        Err(fault) => Err(fault),
        Ok(_) => unreachable!(),
    }
}

/// The network of a file by numbers where nothing is wrong with its models, and else nothing.
fn flatten_known(alloc: Global, file: &NumberedFile<'_>) -> Result<Option<Network>, FlatFault>
    requires good { IsGoodFile (file_of file.now) }
    requires closed { first_part file.now (length file.now.models) ≡ length file.now.parts }
    ensures network { IfOk result (λ found. IfSome found (IsNetworkOf (file_of file.now))) }
    ensures none { IfOk result (λ found. IfNone found (NothingRefuses (file_of file.now) 5 → ⊥)) }
    ensures refused { (line : ℕ) (kind : FlatKind) (name : List ℕ) → IsErrOf result (FlatFault.At line kind name)
        → IsRefusal (file_of file.now) (At kind line name) }
    ensures too_many { (limit : Limit) (count : ℕ) → IsErrOf result (FlatFault.TooMany limit count)
        → IsRefusal (file_of file.now) (TooMany limit count) }
{
    match called_file(alloc, file)? {
        Some(called) => {
            let network = flatten_called(
                alloc,
                file,
                &called.places,
                &called.names,
                &called.calls,
            )?;
            Ok(Some(network))
        }
        None => Ok(None),
    }
}

/// The network of a file by the calls of its models, or what is wrong with its counts or signals.
fn flatten_called(
    alloc: Global,
    file: &NumberedFile<'_>,
    places: &CardPlaces,
    names: &LocalNames,
    calls: &ModelCalls,
) -> Result<Network, FlatFault>
    requires good { IsGoodFile (file_of file.now) }
    requires places { AreCardPlaces file.now places.now }
    requires names { AreLocalNames file.now names.now }
    requires calls { AreModelCalls (file_of file.now) calls.now }
    ensures network { IfOk result (IsNetworkOf (file_of file.now)) }
    ensures refused { (line : ℕ) (kind : FlatKind) (name : List ℕ) → IsErrOf result (FlatFault.At line kind name)
        → IsRefusal (file_of file.now) (At kind line name) }
    ensures too_many { (limit : Limit) (count : ℕ) → IsErrOf result (FlatFault.TooMany limit count)
        → IsRefusal (file_of file.now) (TooMany limit count) }
{
    check_counts(alloc, file, calls, names)?;
    keep_rooms(alloc);
    let plans = plans(alloc, file, &calls.nodes)?;
    flatten_planned(alloc, file, places, names, calls, &plans)
}

/// Asks for a room and gives it back. From then on glibc keeps the rooms of up to that size that are given back, so that
/// the pages of the lists to come need not be asked of the system anew. Where there is no such room, nothing changes.
fn keep_rooms(alloc: Global) {
    let _ = Vec::<u8>::with_capacity(alloc, KEPT_ROOM);
}

/// The network of a file within the limits by the plans of its models, or what is wrong with its signals.
fn flatten_planned(
    alloc: Global,
    file: &NumberedFile<'_>,
    places: &CardPlaces,
    names: &LocalNames,
    calls: &ModelCalls,
    plans: &[Plan],
) -> Result<Network, FlatFault>
    requires good { IsGoodFile (file_of file.now) }
    requires places { AreCardPlaces file.now places.now }
    requires names { AreLocalNames file.now names.now }
    requires calls { AreModelCalls (file_of file.now) calls.now }
    requires planned { HavePlans (models_in file.now) calls.now.nodes plans.now }
    requires few { signal_count (file_of file.now) ≤ most_signals }
    requires before { HasNoRefusal (file_of file.now) 6 }
    ensures network { IfOk result (IsNetworkOf (file_of file.now)) }
    ensures refused { (line : ℕ) (kind : FlatKind) (name : List ℕ) → IsErrOf result (FlatFault.At line kind name)
        → IsRefusal (file_of file.now) (At kind line name) }
    ensures no_count { (limit : Limit) (count : ℕ) → IsErrOf result (FlatFault.TooMany limit count) → ⊥ }
{
    let numbered = number(alloc, file, places, names, calls, plans)?;
    let cards = CardFile::numbered(file, places);
    let levels = check_signals(alloc, &cards, &numbered)?;
    Ok(network_of(alloc, &cards, &numbered, levels)?)
}
