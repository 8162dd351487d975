//! Whole decks as they are written.

use spice_read::read;
use spice_text::write;
use std::alloc::Global;
use std::test::Fail;

/// The text of the circuit of a deck.
fn rewritten(alloc: Global, deck: &[u8]) -> Result<Vec<u8>, Fail> {
    let circuit = read(alloc, deck)?;
    Ok(write(alloc, &circuit)?)
}

/// Decks, and how they are written.
const DECKS: &[(&str, &str, &str)] = &[
    (
        "a pin",
        ".subckt e vdd vss ck1 lm lmb ls lsb rs rsb i_a\n.ends\n",
        "* domsyn deck 1\n.subckt e vdd vss ck1 lm lmb ls lsb rs rsb\n+ i_a\n.ends e\n",
    ),
    (
        "nine pins",
        ".subckt e vdd vss ck1 ck2 lm lmb ls lsb rs rsb i_1 i_2 i_3 i_4 i_5 i_6 i_7 i_8 i_9 o_f\n.ends\n",
        "* domsyn deck 1\n.subckt e vdd vss ck1 ck2 lm lmb ls lsb rs rsb\n+ i_1 i_2 i_3 i_4 i_5 i_6 i_7 i_8\n+ i_9\n+ o_f\n.ends e\n",
    ),
    (
        "ports in no order",
        ".subckt e vdd vss ck1 lm lmb ls lsb rs rsb o_f i_a\n.ends\n",
        "* domsyn deck 1\n.subckt e\n+ vdd vss ck1 lm lmb ls lsb rs\n+ rsb o_f i_a\n.ends e\n",
    ),
    (
        "phases and devices",
        "* phase o_f +\n* phase x0 -\n.subckt gate vdd vss i_a o_f\n\
         m o_f i_a vdd x pch\nm o_f i_a t x nch\nm t o_f vss x pkeep\n.ends\n",
        "* domsyn deck 1\n* phase o_f +\n* phase x0 -\n.subckt gate\n+ vdd vss i_a o_f\n\
         m0 o_f i_a vdd vdd pch\nm1 o_f i_a t vss nch\nm2 t o_f vss vdd pkeep\n.ends gate\n",
    ),
];

#[test]
fn ports_phases_and_devices_stand_on_lines(rt: HostRuntime) -> Result<(), Fail> {
    let alloc = rt.alloc();
    for (what, text, wanted) in DECKS {
        let written = rewritten(alloc, text.as_bytes())?;
        assert_eq!(rt; written.as_slice(), wanted.as_bytes(), "at {what}");
    }
    Ok(())
}
