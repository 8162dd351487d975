//! The line of `.subckt` and the lines of ports.
ghost use Rattle.std.specs.Prelude.{◌≡◌, ◌++◌, MatchResult, OnOk};
ghost use Rattle.deck.specs.Roles.{AreRoles, LeavesRolesAt};
ghost use Rattle.spice_text.specs.Text.{plus_lines};
ghost use Rattle.spice_text.specs.Parts.{ArePortGroups, IsSubckt};

use crate::line::{put_line, put_words};
use deck::{PortFault, Roles};
use dom_base::{NetName, OutOfMemory, append, append_word};

/// The greatest number of names on a line that begins with `+`.
const NAMES_ON_A_LINE: usize = 8;

/// Ports in the order of roles: supplies, clocks and the nets of latches, then pins, then outputs.
#[derive(Clone, Copy)]
struct Groups<'a> {
    pub leading: &'a [NetName],
    pub pins: &'a [NetName],
    pub outs: &'a [NetName],
}

/// Cuts ports in the order of these roles into groups.
fn cut_ports(ports: &[NetName], roles: Roles) -> Groups<'_>
    requires { AreRoles ports.now roles }
    ensures { ArePortGroups ports.now result.leading.now result.pins.now result.outs.now }
{
    let leading = roles.first_pin() as usize;
    let names = &ports[leading..];
    let pins = roles.pins as usize;
    Groups {
        leading: &ports[..leading],
        pins: &names[..pins],
        outs: &names[pins..],
    }
}

/// Appends `.subckt`, the name, and the ports, on this line and on lines that begin with `+`. The
/// roles are those of the ports, or tell where the ports leave the order of roles.
pub fn put_subckt(
    text: &mut Vec<u8>,
    name: &[u8],
    ports: &[NetName],
    roles: Result<Roles, PortFault>,
) -> Result<(), OutOfMemory>
    requires { MatchResult roles (λ roles. AreRoles ports.now roles) (λ fault. LeavesRolesAt ports.now fault.place) }
    ensures { OnOk result (IsSubckt text.old.items name.now ports.now text.new.items) }
{
    append(text, b".subckt")?;
    append_word(text, name)?;
    match roles {
        Ok(roles) => {
            let groups = cut_ports(ports, roles);
            put_words(text, groups.leading)?;
            append(text, b"\n")?;
            put_port_lines(text, groups.pins)?;
            put_port_lines(text, groups.outs)?;
            Ok(())
        }
        Err(_) => {
            append(text, b"\n")?;
            put_port_lines(text, ports)?;
            Ok(())
        }
    }
}

/// Appends names on lines that begin with `+`.
fn put_port_lines(text: &mut Vec<u8>, names: &[NetName]) -> Result<(), OutOfMemory>
    ensures { OnOk result (text.new.items ≡ text.old.items ++ plus_lines names.now) }
{
    let mut rest = names;
    'groups: while !rest.is_empty() {
        let group = rest.len().min(NAMES_ON_A_LINE);
        put_line(text, b"+", &rest[..group])?;
        rest = &rest[group..];
    }
    Ok(())
}
