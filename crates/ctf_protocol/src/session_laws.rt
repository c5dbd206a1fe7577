//! Laws over the runs of many sessions. Each is the contract of a function that does nothing.
ghost use Rattle.ctf_protocol.specs.sessions.ChargeLaws.{RequestsStayWithinQuota};
ghost use Rattle.ctf_protocol.specs.sessions.RefusalLaws.{
  BadLinesAreInTheTable,
  RefusalsAreInTheTable,
  RefusalsChangeNothing,
};
ghost use Rattle.ctf_protocol.specs.sessions.SessionLaws.{EachRunsAlone, EachStepHappens, SameGiven, UnreachedDoNotMatter};

/// The replies to a session, and its library, depend only on its own requests and on what its takes
/// found.
pub fn same_given_same_replies()
    ensures { SameGiven }
{}

/// Sessions that no take reaches may be left out: the others get the same.
pub fn unreached_sessions_do_not_matter()
    ensures { UnreachedDoNotMatter }
{}

/// Every step of a call among the libraries of all sessions is an event of a run.
pub fn steps_happen()
    ensures { EachStepHappens }
{}

/// Sessions do not affect each other: however their requests interleave, each one gets the replies,
/// and ends with the library, of a run on its own.
pub fn each_session_runs_alone()
    ensures { EachRunsAlone }
{}

/// No request takes a library over its quota.
pub fn requests_stay_within_quota()
    ensures { RequestsStayWithinQuota }
{}

/// A request that is refused leaves the library as it was, whatever it asks and whatever its take
/// found.
pub fn refusals_change_nothing()
    ensures { RefusalsChangeNothing }
{}

/// Every fault of a refused request or line is in the table of faults.
pub fn refusals_are_in_the_table()
    ensures requests { RefusalsAreInTheTable }
    ensures lines { BadLinesAreInTheTable }
{}
