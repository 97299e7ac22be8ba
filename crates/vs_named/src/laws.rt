//! What is read from scripts has keys and values, so that each report can be read.

ghost use Rattle.vs_named.specs.Laws.{ReportsAreLegal, ScriptsAreNamed};

/// The operations of scripts that were read are of keys and values.
pub fn scripts_are_named()
    ensures { ScriptsAreNamed }
{}

/// So an audit finds the report legal of each run of a cluster with such scripts, where the rows with which its histories began are
/// of keys and values, and the report is in memory.
pub fn reports_are_legal()
    ensures { ReportsAreLegal }
{}
