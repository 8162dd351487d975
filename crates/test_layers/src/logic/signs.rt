//! Signs of sinks.
use crate::logic::cover_words::sign_words;
use comparison::gates_of;
use phase_assign::assign;
use std::test::Fail;

/// Texts, with the chosen signs of their sinks.
const SIGNS: &[(&str, &str)] = &[
    (
        ".model m\n.inputs a b\n.outputs f g\n.names a b f\n11 1\n.names f g\n0 1\n",
        "-+",
    ),
    (
        ".model m\n.inputs a b\n.outputs f\n.names a b f\n11 1\n",
        "+",
    ),
    (
        ".model m\n.inputs a b\n.outputs f g\n.names a b f\n11 1\n.names a b g\n11 0\n",
        "++",
    ),
    (
        ".model m\n.inputs a b\n.outputs f g h\n.names a b f\n11 1\n.names f g\n0 1\n.names f h\n0 1\n",
        "-++",
    ),
    (
        ".model m\n.inputs a b\n.outputs f g h\n.names a b f\n11 1\n.names f g\n1 1\n.names f h\n0 1\n",
        "++-",
    ),
    (
        ".model m\n.inputs a b\n.outputs f g h i\n.names a b f\n11 1\n.names f g\n1 1\n.names f h\n0 1\n\
         .names f i\n0 1\n",
        "++++",
    ),
    (
        ".model m\n.inputs a\n.outputs g\n.names a q f\n11 1\n.names f g\n0 1\n.latch f q 0\n",
        "-+",
    ),
    (
        ".model m\n.inputs a b c\n.outputs f\n.names a b x\n10 1\n01 1\n.names x c f\n10 1\n01 1\n",
        "+",
    ),
    (
        ".model m\n.inputs a\n.outputs f g h\n.names f\n.names a g\n0 1\n.names a h\n1 1\n",
        "+++",
    ),
];

/// A sign is changed only where that lowers the number of needed pairs, sink by sink, outputs before latches: where
/// the numbers are equal it stays plus, and so does that of a constant or a literal.
#[test]
fn signs_of_sinks(rt: HostRuntime) -> Result<(), Fail> {
    let alloc = rt.alloc();
    for (text, wanted) in SIGNS {
        let gates = gates_of(alloc, text)?;
        let signs = assign(alloc, &gates)?;
        let found = sign_words(alloc, &signs)?;
        assert_eq!(rt; found.as_str(), *wanted, "{text}");
    }
    Ok(())
}
