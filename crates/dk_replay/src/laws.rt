//! The laws of the ticks that a program takes.
ghost use Rattle.dk_replay.specs.Laws.{CallTakes, HasSteps, LapTakes, LoadsItsNumber, RoundTakes, StepsTake, TableTakes, WaitsAtOnce, WorkIsDone, WorkTakes};

use dk_times::jobs_law;

/// The code of n ticks of work takes exactly n ticks, whatever the memory, the registers and the cost of a call are.
pub fn work_law()
    ensures { WorkTakes }
{}

/// A call takes exactly as many ticks as it costs, and is done in the last of them.
pub fn call_law()
    ensures { CallTakes }
{}

/// The program of steps has the code of each of them at its place.
pub fn steps_law()
    ensures { HasSteps }
{}

/// So each work of a profile takes in its program exactly its ticks, from its place to that of the next step.
pub fn done_law()
    ensures { WorkIsDone }
{}

/// A step with a number loads it in one tick, and then stands at its call.
pub fn load_law()
    ensures { LoadsItsNumber }
{}

/// A wait stands at its call.
pub fn wait_law()
    ensures { WaitsAtOnce }
{}

/// Where each of its calls is granted, a job takes in the program of its profile exactly the ticks that its steps say.
pub fn job_law()
    ensures { StepsTake }
{}

/// And the way round takes exactly the ticks that the steps up to the first work say, and none of its own.
pub fn lap_law()
    ensures { LapTakes }
{}

/// So each round of a profile, from behind its first work to there again, takes exactly the ticks of all its steps.
pub fn round_law()
    ensures { RoundTakes }
{}

/// Each job of a table takes in its program exactly the ticks of its cell.
pub fn table_law()
    ensures { TableTakes }
{
    jobs_law();
}
