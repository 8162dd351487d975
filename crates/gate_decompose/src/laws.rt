//! Laws of the gates of a network.
ghost use Rattle.gate_decompose.specs.GatesOrder.{GatesAreOrdered, NetworkGatesAreInPlace};
ghost use Rattle.gate_decompose.specs.NeededPass.{NeededPairsAreOne, NeededPairsAreThere, PassIsNeeded};
ghost use Rattle.gate_decompose.specs.NetworkOrder.{NetworksAreOrdered, SinksHaveValues, TermsHaveValues};
ghost use Rattle.gate_decompose.specs.NodeNames.{NamesAreApart};

/// The term of a table has the table's value, and each sink of a network's gates has the value of
/// its signal. A network's tables read only signals before their own.
pub fn gates_keep_values()
    ensures terms { TermsHaveValues }
    ensures sinks { SinksHaveValues }
    ensures networks { NetworksAreOrdered }
{}

/// No two nodes of a network have one name.
pub fn node_names_are_apart()
    ensures { NamesAreApart }
{}

/// Nodes of a network's gates read leaves that are there and nodes that stand before them, and no
/// constant; its sinks read what is there.
pub fn gates_are_in_order()
    ensures networks { NetworkGatesAreInPlace }
    ensures ordered { GatesAreOrdered }
{}

/// One pass over the nodes, from the last to the first, marks exactly the needed pairs.
pub fn pass_is_needed()
    ensures { PassIsNeeded }
{}

/// There is one list of the needed pairs in order.
pub fn needed_pairs_are_one()
    ensures there { NeededPairsAreThere }
    ensures one { NeededPairsAreOne }
{}
