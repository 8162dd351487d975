//! What holds of the texts that are generated.
ghost use Rattle.net_gen.specs.Laws.{GeneratedIsAccepted, GeneratedIsGood, GeneratedIsNetwork, StimulusIsRead};

/// The network that is generated keeps what a network keeps: its names are good and differ, each table
/// reads only signals before its own, and it is within the limits.
pub fn generated_is_network()
    ensures { GeneratedIsNetwork }
{}

/// The file of the network that is generated is good.
pub fn generated_file_is_good()
    ensures { GeneratedIsGood }
{}

/// The text that is generated is accepted, as the same file in all but lines, which is refused for nothing.
pub fn generated_text_is_accepted()
    ensures { GeneratedIsAccepted }
{}

/// The text of a stimulus is accepted as its four cycles.
pub fn stimulus_is_read()
    ensures { StimulusIsRead }
{}
