//! The report of each state that a run reaches is legal.

ghost use Rattle.vs_legal.specs.Laws.{AccountsAreLegal, ReportsAreLegal, ReportsReadBack};

/// An audit reads the report of a cluster as the account of its histories and answers.
pub fn reports_read_back()
    ensures { ReportsReadBack }
{}

/// And it finds that legal.
pub fn accounts_are_legal()
    ensures { AccountsAreLegal }
{}

/// So it finds each report legal that a run of a cluster comes to.
pub fn reports_are_legal()
    ensures { ReportsAreLegal }
{}
