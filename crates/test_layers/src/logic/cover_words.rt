//! Signs, trees and numbers in words.
use dom_base::ToVss;
use sp_network::{GatePlan, Sp};
use std::alloc::{AllocError, Global};

/// `+` or `-` for each sign.
pub fn sign_words(alloc: Global, signs: &[bool]) -> Result<String, AllocError> {
    let mut text = String::new(alloc);
    for plus in signs {
        text.push_str(if *plus { "+" } else { "-" })?;
    }
    Ok(text)
}

/// A tree, with its gates by number, `&` for series and `|` for parallel.
fn tree_words(alloc: Global, tree: &Sp<ToVss>) -> Result<String, AllocError> {
    match tree {
        Sp::Leaf { gate, .. } => format!(in alloc; "{gate}"),
        Sp::Series(left, right) => {
            let left = tree_words(alloc, left)?;
            let right = tree_words(alloc, right)?;
            format!(in alloc; "({left} & {right})")
        }
        Sp::Parallel(left, right) => {
            let left = tree_words(alloc, left)?;
            let right = tree_words(alloc, right)?;
            format!(in alloc; "({left} | {right})")
        }
    }
}

/// The trees of plans in order.
pub fn plan_words(alloc: Global, plans: &[GatePlan]) -> Result<String, AllocError> {
    let mut text = String::new(alloc);
    for plan in plans {
        text.push_str(tree_words(alloc, &plan.tree)?.as_str())?;
        text.push_str("; ")?;
    }
    Ok(text)
}

/// Numbers, each with a blank behind it.
pub fn number_words(alloc: Global, numbers: &[u32]) -> Result<String, AllocError> {
    let mut text = String::new(alloc);
    for number in numbers {
        text.push_str(format!(in alloc; "{number} ")?.as_str())?;
    }
    Ok(text)
}

/// The clocks of plans, each with a blank behind it.
pub fn clock_words(alloc: Global, plans: &[GatePlan]) -> Result<String, AllocError> {
    let mut text = String::new(alloc);
    for plan in plans {
        let clock = plan.clock;
        text.push_str(format!(in alloc; "{clock} ")?.as_str())?;
    }
    Ok(text)
}
