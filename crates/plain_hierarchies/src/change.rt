//! Changes of a file that mostly make it one that is refused.
use crate::file::{CardBody, NamedControl, PlainCard, PlainFile, PlainModel};
use crate::sample::{FIRST_SIGNAL, drawn_name};
use plain_texts::Draws;
use std::alloc::AllocError;

/// Changes a drawn thing of a file.
pub fn change_file(draws: &mut Draws, file: &mut PlainFile) -> Result<(), AllocError> {
    let place = draws.below(file.models.len());
    let Some(model) = file.models.get_mut(place) else {
        return Ok(());
    };
    match draws.below(8) {
        0 => {
            if draws.below(4) == 0 {
                model.name = draws.below(FIRST_SIGNAL);
            }
            Ok(())
        }
        1 => change_ports(draws, model),
        _ => {
            let card = draws.below(model.cards.len());
            match model.cards.get_mut(card) {
                Some(card) => change_card(draws, card),
                None => Ok(()),
            }
        }
    }
}

fn change_ports(draws: &mut Draws, model: &mut PlainModel) -> Result<(), AllocError> {
    match draws.below(4) {
        0 => model.inputs.push(drawn_name(draws))?,
        1 => {
            model.inputs.pop();
        }
        2 => {
            if let Some(port) = model.outputs.first().copied() {
                model.outputs.push(port)?;
            }
        }
        _ => model.outputs.push(drawn_name(draws))?,
    }
    Ok(())
}

fn change_card(draws: &mut Draws, card: &mut PlainCard) -> Result<(), AllocError> {
    match &mut card.body {
        CardBody::Table(table) => {
            let place = draws.below(table.inputs.len());
            match table.inputs.get_mut(place) {
                Some(input) if draws.below(2) == 0 => *input = drawn_name(draws),
                _ => table.output = drawn_name(draws),
            }
        }
        CardBody::Latch(latch) => match draws.below(5) {
            0 => latch.input = drawn_name(draws),
            1 => latch.output = drawn_name(draws),
            2 => {
                latch.control = Some(NamedControl {
                    rising: draws.below(2) == 0,
                    signal: None,
                });
            }
            3 => latch.control = None,
            _ => {
                latch.control = Some(NamedControl {
                    rising: true,
                    signal: Some(drawn_name(draws)),
                });
            }
        },
        CardBody::Instance(instance) => {
            let place = draws.below(instance.bindings.len());
            match (draws.below(5), instance.bindings.get_mut(place)) {
                (0, _) => instance.unit = draws.below(FIRST_SIGNAL.saturating_add(1)),
                (1, Some(binding)) => binding.0 = drawn_name(draws),
                (2, Some(_)) => {
                    instance.bindings.pop();
                }
                (_, Some(binding)) => binding.1 = drawn_name(draws),
                (_, None) => (),
            }
        }
    }
    Ok(())
}
