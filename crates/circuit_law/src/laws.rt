//! Laws of all circuits.
ghost use Rattle.circuit_law.specs.Exchanged.{EventsAgree, TargetsAgree};
ghost use Rattle.circuit_law.specs.Laws.{
  EventsAreBounded,
  QuietOnce,
  RestsOrHasEvent,
  SharesRulesOfPaths,
};

/// Two circuits with the same devices, in any order and with drains and sources exchanged at will,
/// have the same target of each net and the same events.
pub fn exchanged_devices_agree()
    ensures targets { TargetsAgree }
    ensures events { EventsAgree }
{}

/// Where two lists of values agree at the gates of all devices and at all sources, the rules of
/// paths to sources give each net the same target.
pub fn agreeing_values_share_rules()
    ensures { SharesRulesOfPaths }
{}

/// In every state the circuit is at rest, or a net may have an event.
pub fn rests_or_has_event()
    ensures { RestsOrHasEvent }
{}

/// While no net that gates a device has an event, no net has two.
pub fn quiet_nets_once()
    ensures { QuietOnce }
{}

/// Of `n` nets there are at most `(n + 1)^2` events in turn, where each net that gates a device has
/// at most one.
pub fn events_are_bounded()
    ensures { EventsAreBounded }
{}
