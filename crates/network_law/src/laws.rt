//! The law of answers to files.
ghost use Rattle.network_law.specs.Laws.{FileHasAnswer};

/// Each file is refused for something or has a network. That it has no more than one of them is
/// `net_flatten`'s law.
pub fn file_has_answer()
    ensures { FileHasAnswer }
{}
