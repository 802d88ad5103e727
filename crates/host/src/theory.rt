//! What runs of the calls say: a theorem in the contract of a call that does nothing.
ghost use Rattle.host.specs.Runs.{HostRunsKeepTheLaw};

/// After a begin that went well, every run of the calls with one table and long enough areas keeps the law of runs.
pub fn host_runs_keep_the_law()
    ensures { HostRunsKeepTheLaw }
{}
