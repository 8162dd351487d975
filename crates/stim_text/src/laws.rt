//! What holds of each text and its answer.
ghost use Rattle.stim_text.specs.Laws.{TextHasOneAnswer};

/// Each text is at each number of pins the stimulus of one list of cycles, or is refused at one line
/// for one fault, and never both.
pub fn text_has_one_answer()
    ensures { TextHasOneAnswer }
{}
