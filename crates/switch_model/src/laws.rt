//! Laws of targets.
ghost use Rattle.switch_model.specs.Laws.{
  DependsOnNearNets,
  HasNoTwoTargets,
  HasTarget,
  KeepsWhereOff,
  SourcesStandFirst,
  TargetsAreThoseOfCircuit,
};
ghost use Rattle.switch_model.specs.Drives.{TargetsByDrives};
ghost use Rattle.switch_model.specs.Locality.{KeepsPendingElsewhere, KeepsTargetsElsewhere};

/// Each net that is no source has exactly one target.
pub fn has_one_target()
    ensures some { HasTarget }
    ensures one { HasNoTwoTargets }
{}

/// A net whose devices are all off keeps its value.
pub fn keeps_where_off()
    ensures { KeepsWhereOff }
{}

/// The target of a net depends on its own value, on the values of the nets that possible paths join
/// to it, and on the gates of the devices that end at these nets, and on no other value.
pub fn depends_on_near_nets()
    ensures { DependsOnNearNets }
{}

/// In a circuit whose ports are in the order of roles the sources, which are the ports that do not
/// begin with `o_`, are the ports before the outputs.
pub fn sources_stand_first()
    ensures first { SourcesStandFirst }
    ensures targets { TargetsAreThoseOfCircuit }
{}

/// Where one net's value changes, no targets change but that net's and those of nets in the
/// components that it touches, and no other net begins or ceases to be pending.
pub fn local_targets()
    ensures targets { KeepsTargetsElsewhere }
    ensures pending { KeepsPendingElsewhere }
{}

/// The drives of four sorts of paths give the target of a net.
pub fn targets_by_drives()
    ensures { TargetsByDrives }
{}
