//! What holds of each text and its answer.
ghost use Rattle.spice_read.specs.Laws.{TextHasOneAnswer, WrittenIsRead};

/// Each text is accepted with one circuit or refused for one fault, and never both.
pub fn text_has_one_answer()
    ensures { TextHasOneAnswer }
{}

/// The text that is written for any circuit whose name and ports have no byte `=` is accepted, and
/// its circuit is that one: name, phases, ports, nets and devices. No other circuit is, and no fault
/// is told of it: what was written reads as what it was, or memory is wanting.
pub fn written_is_read()
    ensures { WrittenIsRead }
{}
