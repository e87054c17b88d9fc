// What is proved of run control around the one-bus core, each theorem asked for by a contract.
ghost use Rattle.run_control.specs.OneBus.{OneBusFollows, OneBusKeepsPace, OneBusResets};
ghost use Rattle.run_control.specs.Examples.{WorkedRuns};

/// After every list of calls the machine agrees with the book that was fed them, whatever the delays do.
pub fn every_list_follows()
    ensures { OneBusFollows }
{}

/// Two machines that are started once and then only clocked keep pace, whatever the delays of either memory do.
pub fn machines_keep_pace()
    ensures { OneBusKeepsPace }
{}

/// A reset on any clock leaves the registers and the words as after the last finished instruction.
pub fn resets_leave_whole_instructions()
    ensures { OneBusResets }
{}

/// Real programs run: lists of calls and answers that lead somewhere.
pub fn programs_run()
    ensures { WorkedRuns }
{}
