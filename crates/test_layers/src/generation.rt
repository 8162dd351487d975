//! Texts of networks that are generated, and their stimuli.
use net_gen::{bench_stimulus, generate};
use std::alloc::Global;
use std::process::Abort;
use std::test::Fail;

const ONE_TABLE: &str = ".model gen\n\
    .inputs a0 a1 a2 a3 a4 a5 a6 a7 a8 a9 a10 a11 a12 a13 a14 a15\n\
    .outputs t0\n\
    .names a3 a2 a13 t0\n\
    000 0\n\
    --1 0\n\
    .end\n";

/// The first table of seed 1, whose rows end in 0.
#[test]
fn one_table(rt: HostRuntime) -> Result<(), Fail> {
    let alloc = rt.alloc();
    let text = generate(alloc, 1, 1)?;
    assert!(rt; text.as_slice() == ONE_TABLE.as_bytes());
    Ok(())
}

/// Seeds that are the same modulo 65,536 give the same text, and others another.
#[test]
fn seeds_modulo_2_to_the_16(rt: HostRuntime) -> Result<(), Fail> {
    let alloc = rt.alloc();
    let text = generate(alloc, 7, 20)?;
    assert!(rt; text.as_slice() == generate(alloc, 65_543, 20)?.as_slice());
    assert!(rt; text.as_slice() != generate(alloc, 8, 20)?.as_slice());
    Ok(())
}

fn ends_with_lines(rt: &impl Abort, alloc: Global, tables: u32, lines: &str) -> Result<(), Fail> {
    assert!(rt; 1 <= tables && tables <= 30_000);
    let text = generate(alloc, 3, tables)?;
    assert!(rt; text.ends_with(lines.as_bytes()));
    Ok(())
}

/// There is a latch for each 16 tables, which takes the first of them.
#[test]
fn a_latch_for_16_tables(rt: HostRuntime) -> Result<(), Fail> {
    let alloc = rt.alloc();
    ends_with_lines(&rt, alloc, 16, "\n.latch t0 q0 0\n.end\n")?;
    ends_with_lines(&rt, alloc, 31, "\n.latch t0 q0 0\n.end\n")?;
    ends_with_lines(&rt, alloc, 32, "\n.latch t16 q1 0\n.end\n")?;
    ends_with_lines(&rt, alloc, 1_000, "\n.latch t976 q61 0\n.end\n")
}

/// Every third pin is 1, one place earlier in each cycle, by the seed modulo 3.
#[test]
fn stimuli_of_four_cycles(rt: HostRuntime) -> Result<(), Fail> {
    let alloc = rt.alloc();
    for (seed, width, wanted) in [
        (1, 3, "001\n010\n100\n001\n"),
        (4, 3, "001\n010\n100\n001\n"),
        (0, 5, "10010\n00100\n01001\n10010\n"),
        (18_446_744_073_709_551_615, 2, "10\n00\n01\n10\n"),
        (2, 0, "-\n-\n-\n-\n"),
    ] {
        let text = bench_stimulus(alloc, seed, width)?;
        assert!(rt; text.as_slice() == wanted.as_bytes());
    }
    Ok(())
}
