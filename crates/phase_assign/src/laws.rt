//! Laws of the chosen signs.
ghost use Rattle.phase_assign.specs.Signs.{ChosenSignsAreNoWorse, ChosenSignsAreOne, ChosenSignsAreSettled, ChosenSignsAreThere};

/// The chosen signs are one list, which is settled and needs no more pairs than all plus.
pub fn chosen_signs_are_settled()
    ensures there { ChosenSignsAreThere }
    ensures one { ChosenSignsAreOne }
    ensures settled { ChosenSignsAreSettled }
    ensures no_worse { ChosenSignsAreNoWorse }
{}
