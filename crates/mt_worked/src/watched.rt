//! Histories with a watcher that refuses.
ghost use Rattle.mt_worked.specs.Watched.{stopped_switch_is_finished_by_steps, watcher_refuses_to_allow_the_target};

/// What a watcher refuses past the journal leaves the way open, and the way is finished by steps.
pub fn watchers_may_refuse()
    ensures watcher_refuses_to_allow_the_target { watcher_refuses_to_allow_the_target }
    ensures stopped_switch_is_finished_by_steps { stopped_switch_is_finished_by_steps }
{}
