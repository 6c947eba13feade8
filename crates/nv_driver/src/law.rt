//! Laws about every schedule of a controller's requests.

ghost use Rattle.nv_driver.specs.Request.{EveryCommandIsRequest, EveryEntryIsRequest};
ghost use Rattle.nv_driver.specs.Schedule.{EveryScheduleIsSerial};

/// States a law: for any sequence of submissions, doorbells, turns and collections of one
/// controller's requests, and of the host's writes elsewhere, the collected answers are the first
/// of those that the requests get one at a time, each once and in order. The call does nothing.
pub fn any_schedule()
    ensures { EveryScheduleIsSerial }
{}

/// States a law: each command that `Driver::admin` takes is a request that can be submitted to any
/// controller of a well-formed subsystem, so the law of schedules holds for commands too. The call
/// does nothing.
pub fn any_command()
    ensures { EveryCommandIsRequest }
{}

/// States a law: any entry, with any data from the host, is a request that can be submitted. What
/// it asks for and how its data is transferred don't depend on the command identifier, the data
/// pointer or any place in memory. The call does nothing.
pub fn any_entry()
    ensures { EveryEntryIsRequest }
{}
