//! Forests under signs.
use crate::logic::told_forest;
use comparison::gates_of;
use std::test::Fail;

const AND_AND_ITS_NOT: &str =
    ".model m\n.inputs a b\n.outputs f g\n.names a b f\n11 1\n.names f g\n0 1\n";

const ODD: &str =
    ".model m\n.inputs a b c\n.outputs f\n.names a b x\n10 1\n01 1\n.names x c f\n10 1\n01 1\n";

const STATE: &str = ".model m\n.inputs a\n.outputs f\n.names a q f\n11 1\n.latch f q 0\n";

const TWICE: &str = ".model m\n.inputs a b\n.outputs f\n.names a b n\n11 1\n.names n n f\n11 1\n";

const BARE: &str = ".model m\n.inputs a b\n.outputs f g h i\n.names a b f\n11 1\n-- 1\n.names g\n\
     .names a h\n0 1\n.names a i\n1 1\n";

/// Texts and signs, with the number of pairs, and the forest in words.
const FORESTS: &[(&str, &str, u64, &str)] = &[
    (
        AND_AND_ITS_NOT,
        "++",
        2,
        "n0+ x1 = l0 & l1; n0- x1 = !l0 | !l1; -> d0 d1",
    ),
    (AND_AND_ITS_NOT, "-+", 1, "n0- x2 = !l0 | !l1; -> z0 d0"),
    (AND_AND_ITS_NOT, "+-", 1, "n0+ x2 = l0 & l1; -> d0 z0"),
    (
        AND_AND_ITS_NOT,
        "--",
        2,
        "n0+ x1 = l0 & l1; n0- x1 = !l0 | !l1; -> z1 z0",
    ),
    (
        ODD,
        "+",
        9,
        "n1+ x1 = l0 & !l1; n1- x1 = !l0 | l1; n3+ x1 = !l0 & l1; n3- x1 = l0 | !l1; n4+ x1 = p0 | p2; \
         n4- x1 = p1 & p3; n6+ x1 = p4 & !l2; n8+ x1 = p5 & l2; n9+ x1 = p6 | p7; -> d8",
    ),
    (
        ODD,
        "-",
        9,
        "n1+ x1 = l0 & !l1; n1- x1 = !l0 | l1; n3+ x1 = !l0 & l1; n3- x1 = l0 | !l1; n4+ x1 = p0 | p2; \
         n4- x1 = p1 & p3; n6- x1 = p5 | l2; n8- x1 = p4 | !l2; n9- x1 = p6 & p7; -> z8",
    ),
    (STATE, "++", 1, "n0+ x2 = l0 & l1; -> d0 d0"),
    (
        STATE,
        "+-",
        2,
        "n0+ x1 = l0 & l1; n0- x1 = !l0 | !l1; -> d0 z1",
    ),
    (TWICE, "+", 2, "n0+ x2 = l0 & l1; n1+ x1 = p0 & p0; -> d1"),
    (TWICE, "-", 2, "n0- x2 = !l0 | !l1; n1- x1 = p0 | p0; -> z1"),
    (BARE, "++++", 0, "-> 1 0 !l0 l0"),
    (BARE, "----", 0, "-> 1 0 !l0 l0"),
];

/// The needed pairs of each sign, with the number of uses, and the end of each sink: the dynamic net for plus and
/// the output for minus; the value itself of a constant or a literal, whatever the sign.
#[test]
fn forests_under_signs(rt: HostRuntime) -> Result<(), Fail> {
    let alloc = rt.alloc();
    for (text, signs, pairs, wanted) in FORESTS {
        let gates = gates_of(alloc, text)?;
        let found = told_forest(&rt, alloc, &gates, signs, *pairs)?;
        assert_eq!(rt; found.as_str(), *wanted, "{text} {signs}");
    }
    Ok(())
}
