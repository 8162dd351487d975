//! Laws of stages: the next values of their nets, over all paths of the circuit.
ghost use Rattle.stage_law.specs.Laws.{
  BranchDrives,
  KeeperKeeps,
  LeavesByWays,
  PrechargesInnerNets,
  SharesNoCharge,
  ShutStageHolds,
  StaysPulled,
};

/// What the top of a stage goes to: a possible path leaves it only through a branch or a tap that
/// is not off; a branch that conducts drives it where no other way leads elsewhere; a keeper that
/// conducts keeps it where nothing stronger does; and where each device at it is off it holds its value.
pub fn top_has_target()
    ensures ways { LeavesByWays }
    ensures drives { BranchDrives }
    ensures keeps { KeeperKeeps }
    ensures holds { ShutStageHolds }
{}

/// The dynamic net of a cell that precharges its inner nets, and these nets: with the clock low they
/// go to `One`; with the clock high and known leaves they fall only by definite paths to ground, so no
/// charge is shared; and such a path stays while leaves rise.
pub fn precharged_nets_hold()
    ensures precharged { PrechargesInnerNets }
    ensures falls { SharesNoCharge }
    ensures pulled { StaysPulled }
{}
