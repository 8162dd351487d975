//! Chains of buffers behind the cells of decks.
use crate::logic::chosen_forest;
use crate::logic::cover_words::{clock_words, number_words, plan_words};
use clock_phase::assign_clocks;
use comparison::read_earlier;
use dual_rail::End;
use phase_buffer::{Buffered, buffer};
use std::alloc::Global;
use std::process::Abort;
use std::test::Fail;
use tree_map::{Bounds, Cover, cover};

/// The most leaves and cells of a network here.
const MOST: u32 = 1_000;

const AND_OF_FIVE: &str = ".model m\n.inputs a b c d e\n.outputs f\n.names a b c d e f\n11111 1\n";

const WITH_END: &str =
    ".model m\n.inputs a b c\n.outputs f g\n.names a b f\n11 1\n.names f c g\n11 1\n";

/// The cells of a text within width and height 2, on so many clocks, with chains of buffers.
fn with_buffers(rt: &impl Abort, alloc: Global, text: &str, phases: u8) -> Result<Buffered, Fail> {
    let forest = chosen_forest(rt, alloc, text)?;
    let Cover {
        cells,
        mut plans,
        ..
    } = cover(alloc, &forest, Bounds { w: 2, h: 2 })?;
    let mut levels = vec![in alloc; 0u32; plans.len()]?;
    assert!(rt; 1 <= phases && phases <= 4);
    assert!(rt; forest.leaves < MOST);
    assert!(rt; plans.len() < MOST as usize);
    assert!(rt; read_earlier(plans.as_slice(), forest.leaves));
    assign_clocks(
        plans.as_mut_slice(),
        levels.as_mut_slice(),
        forest.leaves,
        phases,
    );
    let mut sinks = Vec::new(alloc);
    for end in forest.ends.iter() {
        if let End::FromDynamic(place) | End::FromOutput(place) = *end {
            sinks.push(cells.get(place as usize).copied().unwrap_or(MOST))?;
        }
    }
    assert!(rt; plans.len() < MOST as usize);
    assert!(rt; read_earlier(plans.as_slice(), forest.leaves));
    assert!(rt;
        plans
            .iter()
            .all(|plan| 1 <= plan.clock && plan.clock <= phases)
    );
    assert!(rt; sinks.iter().all(|cell| (*cell as usize) < plans.len()));
    Ok(buffer(
        alloc,
        plans.as_slice(),
        forest.leaves,
        phases,
        sinks.as_slice(),
    )?)
}

/// A text and a number of clocks; the trees and the clocks of its cells with their buffers, the new numbers of
/// the cells, and those of the last of the chains from which sinks take.
struct Chains {
    text: &'static str,
    phases: u8,
    trees: &'static str,
    clocks: &'static str,
    place: &'static str,
    ends: &'static str,
}

const CHAINS: &[Chains] = &[
    Chains {
        text: AND_OF_FIVE,
        phases: 2,
        trees: "(0 & 2); (10 & 4); (6 & 8); (11 & 12); ",
        clocks: "1 1 1 2 ",
        place: "0 1 2 3 ",
        ends: "3 ",
    },
    Chains {
        text: AND_OF_FIVE,
        phases: 3,
        trees: "(0 & 2); (10 & 4); (6 & 8); 12; (11 & 13); ",
        clocks: "1 2 1 2 3 ",
        place: "0 1 2 4 ",
        ends: "4 ",
    },
    Chains {
        text: AND_OF_FIVE,
        phases: 4,
        trees: "(0 & 2); (10 & 4); (6 & 8); 12; (11 & 13); 14; ",
        clocks: "1 2 1 2 3 4 ",
        place: "0 1 2 4 ",
        ends: "5 ",
    },
    Chains {
        text: WITH_END,
        phases: 3,
        trees: "(0 & 2); 6; 7; (6 & 4); 9; ",
        clocks: "1 2 3 2 3 ",
        place: "0 3 ",
        ends: "2 4 ",
    },
];

/// A cell is followed by a buffer for each clock up to the one before its last reader's, or up to the last where a
/// sink takes from it. A reader takes the cell itself where its clock is the reader's or the one before, and else
/// the buffer of the clock before the reader's.
#[test]
fn chains_of_buffers(rt: HostRuntime) -> Result<(), Fail> {
    let alloc = rt.alloc();
    for case in CHAINS {
        let buffered = with_buffers(&rt, alloc, case.text, case.phases)?;
        let (text, phases) = (case.text, case.phases);
        let trees = plan_words(alloc, &buffered.plans)?;
        assert_eq!(rt; trees.as_str(), case.trees, "{text} {phases}");
        let clocks = clock_words(alloc, &buffered.plans)?;
        assert_eq!(rt; clocks.as_str(), case.clocks, "{text} {phases}");
        let place = number_words(alloc, &buffered.place)?;
        assert_eq!(rt; place.as_str(), case.place, "{text} {phases}");
        let ends = number_words(alloc, &buffered.ends)?;
        assert_eq!(rt; ends.as_str(), case.ends, "{text} {phases}");
    }
    Ok(())
}
