//! What is gathered of a legal run is what is shown of it.
ghost use Rattle.mk_shown.specs.Laws.{WatermarksAreShown};

/// The watermark that is made of the columns of a legal run after some rounds is the one that is shown there.
///
/// The function does nothing: what it promises is the law. It rests on those that it calls.
pub fn watermarks_are_shown()
    ensures { WatermarksAreShown }
{
    mk_record_laws::attempts_stand_once();
    mk_run_laws::runs_reach_moments();
    mk_run_laws::columns_hold();
    mk_run_laws::moments_are_of_runs();
    mk_run_laws::ends_join();
}
