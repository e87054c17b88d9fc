// What is proved of the rows, each theorem asked for by a contract.
ghost use Rattle.rows.specs.Refine.{Refines, FinishesWithin, MovesOn};
ghost use Rattle.rows.specs.Runs.{RunsAlike};
ghost use Rattle.rows.specs.Rules.{EveryStep, EveryCode, gates, selects, functions, one_at_most, reads_or_writes, only_with_end, goes_to_six, ends_by_seven};
ghost use Rattle.rows.specs.declared.signal.Signal.TheVariants.{RIn, Write, Stop};

// The steps of one instruction are the book's clocks, and end as its instruction does, with the whole core as defined.
pub fn rows_refine()
    ensures { Refines }
{}

// Over whole runs: the book's k instructions are the sum of their clocks in steps.
pub fn runs_alike()
    ensures { RunsAlike }
{}

// An instruction that finishes takes 4 to 39 clocks.
pub fn clocks_bounded()
    ensures { FinishesWithin 4 39 }
{}

// Under any control store only the end of an instruction, or a fault, leads to T 0.
pub fn steps_move_on()
    ensures { MovesOn }
{}

// The rules that every step of our control store keeps, each by one test over all 256 control words.
pub fn rules_stand()
    ensures one_gate { EveryStep (one_at_most gates) }
    ensures one_select { EveryStep (one_at_most selects) }
    ensures one_function { EveryStep (one_at_most functions) }
    ensures waited_for { EveryStep reads_or_writes }
    ensures register_at_end { EveryStep (only_with_end RIn) }
    ensures write_at_end { EveryStep (only_with_end Write) }
    ensures stop_at_end { EveryStep (only_with_end Stop) }
    ensures loops_in_six { EveryStep goes_to_six }
    ensures every_row_ends { EveryCode ends_by_seven }
{}
