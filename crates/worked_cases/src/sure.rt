//! A call of the program over a shelf and sinks that never fail.
use dom_io::{SureShelf, SureSink};
use std::alloc::Global;
use sure_top::top_over_sure;

/// How the line of status 2 begins.
const USAGE: &[u8] = b"usage: domsyn synth FILE | ";

/// What is wrong with the answer to no words, if anything is.
pub fn wrong_usage(alloc: Global) -> Option<Option<String>> {
    let words = Vec::new(alloc);
    let files = Vec::new(alloc);
    let mut shelf = SureShelf { files };
    let mut out = SureSink::new(alloc, 0).ok()?;
    let mut err = SureSink::new(alloc, 256).ok()?;
    let status = top_over_sure(alloc, words.as_slice(), &mut shelf, &mut out, &mut err);
    if status == 2 && err.taken.as_slice().starts_with(USAGE) {
        return Some(None);
    }
    Some(Some(String::from_str(alloc, "no words over sinks that never fail").ok()?))
}
