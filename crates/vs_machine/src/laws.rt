//! What holds of every run from a coherent opening.

ghost use Rattle.vs_machine.specs.Completeness.{MovedCalls, OneOutcome, RepliedCalls, SpentCalls, WholeCalls};
ghost use Rattle.vs_machine.specs.Driven.{DrivenAtFirst, DrivenByOthers, DrivenByPosts, FaultNumbers, ListedFlags, StillWithin, TestedAsks, TestedPosts};
ghost use Rattle.vs_machine.specs.Laws.{ActivatedRuns, AnsweredCommands, AnsweredRuns, BegunInputs, CallRuns, CausedCalls, CausedCommands, ChoiceRuns, ChosenWhole, CoherentRuns, CommandRuns, FaultRuns, FewRuns, FiveEventRuns, FreshRuns, FrozenRuns, InputRuns, KeptByEvents, KeptInputs, LegalRuns, NumberedRuns, OneAccepts, OpenedHoldings, OrderedRuns, OwnedRuns, PendingRuns, PostedRuns, PresentRuns, ReachesOn, RefusedRuns, ReopenedRuns, SingleOwners, SingleRuns, TransferRuns, UnheldRuns, WholeRuns, WithinRuns, WrittenEvents, WrittenRuns};

/// Each event keeps what holds inside, so each reached state has it: for the owners that the events of the run give, and
/// for no others, whatever was kept of what is pending. And a possible event from a reached state reaches the next.
pub fn every_event()
    ensures kept { KeptByEvents }
    ensures whole { WholeRuns }
    ensures owned { OwnedRuns }
    ensures owner { SingleOwners }
    ensures chosen { ChosenWhole }
    ensures reaches { ReachesOn }
{}

/// Who has a bucket: each reached state is coherent, whatever was kept of what is pending; and at
/// most one set accepts a bucket's writes.
pub fn one_owner()
    ensures coherent { CoherentRuns }
    ensures chosen { ChoiceRuns }
    ensures one { OneAccepts }
{}

/// One legal history for each bucket: no call stands in two of them, nor twice in one; each call
/// that was answered with a reply stands in its bucket's, with that place and those answers, and
/// one that was answered Spent stands nowhere. A present call stands once where it acted, once at most
/// where it was lost, and nowhere before.
pub fn legal_histories()
    ensures legal { LegalRuns }
    ensures single { SingleRuns }
    ensures answered { AnsweredRuns }
    ensures present { PresentRuns }
{}

/// A client's calls keep their order, a call sees at least what was there when it was posted, and
/// a set from which a bucket was sent keeps the rows that its running reads see.
pub fn ordered_calls()
    ensures ordered { OrderedRuns }
    ensures fresh { FreshRuns }
    ensures frozen { FrozenRuns }
{}

/// A set that becomes active has the rows that the sender had at its seal, after which no write came.
pub fn sealed_rows()
    ensures { ActivatedRuns }
{}

/// A call that was answered with a reply took five events of its own.
pub fn five_events()
    ensures { FiveEventRuns }
{}

/// Nothing that a call holds is collected.
pub fn held_buckets()
    ensures { UnheldRuns }
{}

/// A call is refused exactly by the verdict of the set that was asked, or because that is down; and an operator's
/// command is answered by an event exactly where that finds what the answer says.
pub fn true_answers()
    ensures refused { RefusedRuns }
    ensures answered { AnsweredCommands }
{}

/// What a run is given stays as it was: each state has the lawful configuration and the lawful scripts
/// that the run began with. So the calls and commands that are to come are lawful, and few.
pub fn given_inputs()
    ensures inputs { InputRuns }
    ensures kept { KeptInputs }
    ensures begun { BegunInputs }
    ensures few { FewRuns }
    ensures calls { CallRuns }
    ensures commands { CommandRuns }
    ensures numbered { NumberedRuns }
{}

/// Whoever is to be answered is there: a call that was posted, and the command or the round that began a
/// transfer. And no more is answered of a script than it has.
pub fn due_answers()
    ensures within { WithinRuns }
    ensures posted { PostedRuns }
    ensures begun { TransferRuns }
{}

/// What journals have to stand for: each event writes one change at most, to one set's journal, where it
/// fits, and changes what the sets have as that says; or a fault comes in its place. What is pending at a
/// set that is down still fits. At the opening each set has what its journal holds, and whatever the
/// journals stand for after a run, with or without what is pending, is coherent at the next opening.
pub fn recorded_changes()
    ensures events { WrittenEvents }
    ensures written { WrittenRuns }
    ensures faults { FaultRuns }
    ensures pending { PendingRuns }
    ensures opened { OpenedHoldings }
    ensures reopened { ReopenedRuns }
{}

/// What calls and commands were answered has its cause in the run. A call with a reply ran, and got that. A lost one was
/// cut, or its set went down. One answered Spent was refused 128 times, each time by the verdict of the set that was
/// asked. Of a bucket that was moved the receiver took the last message. A move that was given up had waited 256 turns
/// for its writes, was refused by the receiver, or lost its connection, its receiver or its sender. Any other answer was
/// given by an event that found what it says.
pub fn caused_answers()
    ensures calls { CausedCalls }
    ensures commands { CausedCommands }
{}

/// How calls are posted again: the posts of a list are steered before all events, and after each further one
/// where a post that is added is allowed. Whether it is is told by tests, and whether a state is still by what
/// there is in the cluster. Only a fault changes a set's last fault number.
pub fn steered_posts()
    ensures first { DrivenAtFirst }
    ensures others { DrivenByOthers }
    ensures posts { DrivenByPosts }
    ensures flags { ListedFlags }
    ensures tested { TestedPosts }
    ensures asks { TestedAsks }
    ensures still { StillWithin }
    ensures numbers { FaultNumbers }
{}

/// What becomes of a call in a run whose posts are steered. Where its bucket stays at one set that is up, and it
/// is neither cut nor lost, it's refused twice at most and then replied to. And it's answered Spent only where 63
/// of its further posts were in vain: the cluster stood still then and no set would grant the call, or the bucket
/// was taken from it between the post and its Begin.
pub fn answered_calls()
    ensures whole { WholeCalls }
    ensures one { OneOutcome }
    ensures replied { RepliedCalls }
    ensures spent { SpentCalls }
    ensures moved { MovedCalls }
{}
