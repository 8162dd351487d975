//! The lines of models.
ghost use Rattle.std.specs.Prelude.{◌≡◌, ◌++◌, ◌∷◌, [], All, OnOk, codes};
ghost use Rattle.std.specs.List.{flat_map};
ghost use Rattle.blif_ast.specs.Good.{IsGoodLatch, IsGoodModel};
ghost use Rattle.blif_ast.specs.Printed.{printed_line, table_lines, latch_words, instance_words, model_lines};

use crate::cards::{put_instance, put_latch, put_ports, put_table};
use crate::line::end_line;
use crate::{BlifModel, Instance, Latch, Table};
use dom_base::{OutOfMemory, append, append_word};

/// Appends the lines of each model.
pub fn put_models(text: &mut Vec<u8>, models: &[BlifModel]) -> Result<(), OutOfMemory>
    requires { All IsGoodModel models.now }
    ensures { OnOk result (text.new.items ≡ text.old.items ++ flat_map (λ model. flat_map printed_line (model_lines model)) models.now) }
{
    for model in models {
        put_model(text, model)?;
    }
    Ok(())
}

fn put_model(text: &mut Vec<u8>, model: &BlifModel) -> Result<(), OutOfMemory>
    requires { IsGoodModel model.now }
    ensures { OnOk result (text.new.items ≡ text.old.items ++ flat_map printed_line (model_lines model.now)) }
{
    put_head(text, model.name.as_bytes())?;
    put_ports(text, b".inputs", &model.inputs)?;
    put_ports(text, b".outputs", &model.outputs)?;
    put_tables(text, &model.tables)?;
    put_latches(text, &model.latches)?;
    put_instances(text, &model.instances)?;
    append(text, b".end\n")
}

/// Appends the line `.model NAME`.
pub fn put_head(text: &mut Vec<u8>, name: &[u8]) -> Result<(), OutOfMemory>
    ensures { OnOk result (text.new.items ≡ text.old.items ++ printed_line (codes ".model" ∷ name.now ∷ [])) }
{
    append(text, b".model")?;
    append_word(text, name)?;
    end_line(text, name)
}

fn put_tables(text: &mut Vec<u8>, tables: &[Table]) -> Result<(), OutOfMemory>
    ensures { OnOk result (text.new.items ≡ text.old.items ++ flat_map (λ table. flat_map printed_line (table_lines table)) tables.now) }
{
    for table in tables {
        put_table(text, table)?;
    }
    Ok(())
}

/// Appends a line for each latch.
pub fn put_latches(text: &mut Vec<u8>, latches: &[Latch]) -> Result<(), OutOfMemory>
    requires { All IsGoodLatch latches.now }
    ensures { OnOk result (text.new.items ≡ text.old.items ++ flat_map (λ latch. printed_line (latch_words latch)) latches.now) }
{
    for latch in latches {
        put_latch(text, latch)?;
    }
    Ok(())
}

fn put_instances(text: &mut Vec<u8>, instances: &[Instance]) -> Result<(), OutOfMemory>
    ensures { OnOk result (text.new.items
        ≡ text.old.items ++ flat_map (λ instance. printed_line (instance_words instance)) instances.now) }
{
    for instance in instances {
        put_instance(text, instance)?;
    }
    Ok(())
}
