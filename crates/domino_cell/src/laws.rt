//! Laws of domino cells in a circuit.
ghost use Rattle.domino_cell.specs.Laws.{
  JoinsFootThroughTreeAlone,
  JoinsFootWhereOne,
  JoinsGroundThroughTreeAlone,
  MayJoinFootWhereNotZero,
  MayPullDownWhereNotZero,
  PullsDownWhereOne,
};

/// In a circuit that holds the dynamic stage of a domino cell, at all values of its nets: a definite
/// strong path from the dynamic net to ground is there exactly where the clock and the tree are `One`, a possible
/// one exactly where neither is `Zero`. Where one of them is `Zero` no path at all joins the two,
/// not even a weak one.
pub fn cell_pulls_down()
    ensures definite { PullsDownWhereOne }
    ensures possible { MayPullDownWhereNotZero }
    ensures alone { JoinsGroundThroughTreeAlone }
{}

/// A definite strong path between the dynamic net and the foot net is there exactly where the
/// tree is `One`, a possible one exactly where it is not `Zero`. Where it is `Zero` no path at all
/// joins the two, not even a weak one.
pub fn tree_joins_foot()
    ensures definite { JoinsFootWhereOne }
    ensures possible { MayJoinFootWhereNotZero }
    ensures alone { JoinsFootThroughTreeAlone }
{}
