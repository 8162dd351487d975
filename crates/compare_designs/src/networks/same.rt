//! Refusals and networks beside plain ones.
ghost use Rattle.blif_ast.specs.Good.{IsGoodFile};
ghost use Rattle.model_calls.specs.ModelCalls.{NothingRefuses};

use blif_ast::{BlifFile, print};
use comparison::Trouble;
use dom_base::Name;
use net_flatten::{FlatKind, Limit, Network, sizes, to_file};
use plain_hierarchies::{Counted, PlainFile, PlainRefusal, count_of, one_model, written};
use plain_networks::PlainNetwork;
use std::alloc::Global;

fn counted(limit: Limit) -> Counted {
    match limit {
        Limit::Signals => Counted::Signals,
        Limit::Instances => Counted::Instances,
        Limit::Letters => Counted::Letters,
        Limit::Sinks => Counted::Sinks,
    }
}

fn is_name(name: &Name, file: &PlainFile, number: usize) -> bool {
    name.as_bytes() == file.name(number).as_bytes()
}

/// Whether a refusal of this kind, with this line and name, is the wanted one.
pub fn same_report(
    file: &PlainFile,
    wanted: Option<PlainRefusal>,
    kind: FlatKind,
    line: u64,
    name: &Name,
) -> bool {
    match wanted {
        Some(PlainRefusal::At(number, place, other)) => {
            kind.number() == number && line == place && is_name(name, file, other)
        }
        _ => false,
    }
}

/// Whether a refusal for too many of this is the wanted one.
pub fn same_count(wanted: Option<PlainRefusal>, limit: Limit, count: u64) -> bool {
    match wanted {
        Some(PlainRefusal::TooMany(what, many)) => counted(limit) == what && count == many,
        _ => false,
    }
}

/// Whether a network is this one: the files of one model are, in each byte as they are printed.
pub fn same_network(
    alloc: Global,
    network: &Network,
    plain: &PlainNetwork,
) -> Result<bool, Trouble> {
    let file = to_file(alloc, network)?;
    let printed = print(alloc, &file)?;
    let mut model = one_model(alloc, plain)?;
    let text = written(alloc, &mut model)?;
    Ok(printed.as_slice() == text.as_bytes())
}

/// Whether the counts of a file are those of this one.
pub fn same_sizes(alloc: Global, file: &BlifFile, plain: &PlainFile) -> Result<bool, Trouble>
    requires good { IsGoodFile file.now }
    requires accepted { NothingRefuses file.now 5 }
{
    let found = sizes(alloc, file)?;
    for (what, count) in [
        (Counted::Signals, found.signals),
        (Counted::Instances, found.instances),
        (Counted::Letters, found.letters),
        (Counted::Sinks, found.sinks),
    ] {
        if count_of(alloc, plain, what)? != count {
            return Ok(false);
        }
    }
    Ok(true)
}
