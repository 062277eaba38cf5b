//! What the lines of a legal run say of its commits.
ghost use Rattle.mk_report.specs.RunReports.{CommitsAreDistinct, CommitsAreTold, CommitsAreTransactions};

/// No two lines of a legal run that say commit have one stamp.
///
/// The function does nothing: what it promises is the law. It rests on those that it calls.
pub fn commits_are_distinct()
    ensures { CommitsAreDistinct }
{
    mk_run_laws::columns_hold();
    mk_run_laws::ends_join();
    mk_run_laws::moments_are_of_runs();
}

/// Each line of a legal run that says commit has what a transaction has.
///
/// The function does nothing: what it promises is the law. It rests on those that it calls.
pub fn commits_are_transactions()
    ensures { CommitsAreTransactions }
{
    mk_run_laws::columns_hold();
    mk_run_laws::ends_join();
    mk_run_laws::moments_are_of_runs();
}

/// The transactions of the lines of a legal run that say commit leave on one copy what its commits leave.
///
/// The function does nothing: what it promises is the law. It rests on those that it calls.
pub fn commits_are_told()
    ensures { CommitsAreTold }
{
    mk_run_laws::columns_hold();
    mk_run_laws::ends_join();
    mk_run_laws::moments_are_of_runs();
    mk_safety::learnings_agree();
    mk_safety::commits_are_explained();
}
