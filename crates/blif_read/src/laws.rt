//! What holds of each text and its answer.
ghost use Rattle.blif_read.specs.Laws.{AcceptedFileIsGood, TextHasOneAnswer};
ghost use Rattle.blif_read.specs.ReadsBack.{PrintedReadsBack};

/// The file of an accepted text is good: its names can stand as words of a line, its tables,
/// latches and instances are in their forms, and no two of their cards stand on one line.
pub fn accepted_file_is_good()
    ensures { AcceptedFileIsGood }
{}

/// Each text is accepted with one file or refused for one fault, and never both.
pub fn text_has_one_answer()
    ensures { TextHasOneAnswer }
{}

/// The text that is printed of a good file is accepted, and its file is that one in all but lines.
pub fn printed_reads_back()
    ensures { PrintedReadsBack }
{}
