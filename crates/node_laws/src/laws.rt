//! Laws of NFS nodes.
ghost use Rattle.node_laws.specs.Truth.{EntriesStayTrue};

use node_rules::Planner;

/// Where all that a node holds is true of a flat memory, it is after each event; and so is what a minitransaction is
/// planned over.
pub fn entries_stay_true<P: Planner>()
    ensures { EntriesStayTrue P.plans }
{}
