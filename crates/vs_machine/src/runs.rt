//! Runs that compute, each with its last report or its refusal.

ghost use Rattle.vs_machine.specs.Worked.Moved.{Moved, Refused, ReadAcross, Held};
ghost use Rattle.vs_machine.specs.Worked.Waited.{Waited};
ghost use Rattle.vs_machine.specs.Worked.Recovered.{Back, Forth};
ghost use Rattle.vs_machine.specs.Worked.Recovered as recovered;
ghost use Rattle.vs_machine.specs.Worked.Posted.{Posted};
ghost use Rattle.vs_machine.specs.Worked.Stopped.{Failed, CutCalls, Spent};
ghost use Rattle.vs_machine.specs.Worked.Commanded.{Commanded, Locked};

/// A bucket is moved, while calls run on it.
pub fn moved_runs()
    ensures moved { Moved }
    ensures refused { Refused }
    ensures read_across { ReadAcross }
    ensures held { Held }
{}

/// A move waits for a write, and is given up.
pub fn waited_runs()
    ensures { Waited }
{}

/// A move is interrupted, and recovery settles where the bucket is.
pub fn recovered_runs()
    ensures back { Back }
    ensures forth { Forth }
    ensures refused { recovered.Refused }
{}

/// A set's disk fails, a call is cut, a call's tries are spent.
pub fn stopped_runs()
    ensures failed { Failed }
    ensures cut { CutCalls }
    ensures spent { Spent }
{}

/// Commands, and why they are refused.
pub fn commanded_runs()
    ensures commanded { Commanded }
    ensures locked { Locked }
{}

/// A call follows an old hint: it's refused twice, and then replied to.
pub fn posted_runs()
    ensures { Posted }
{}
