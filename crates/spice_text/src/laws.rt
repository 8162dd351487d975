//! What is proved of the text of circuits.
ghost use Rattle.spice_text.specs.ReadsBack.{WrittenReadsBack, RewrittenReadsBack, DeckHasOneCircuit};

/// The text that is written for any circuit whose name and ports have no byte `=` is a deck, and the
/// circuit of that deck is the one that was written: name, phases, ports, nets and devices. No
/// other circuit is. The circuit of any deck is one that can be written so.
pub fn written_reads_back()
    ensures back { WrittenReadsBack }
    ensures again { RewrittenReadsBack }
    ensures alone { DeckHasOneCircuit }
{}
