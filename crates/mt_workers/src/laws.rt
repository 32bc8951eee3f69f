//! What follows of a controller's calls.
ghost use Rattle.mt_workers.specs.Controls.{AsksForItsOwn, EndsWithAStep};

/// A controller asks for a Show, for advances, begins, steps and undos of its workflow, and for nothing else; and where it answers that all is
/// done, its last call is a step that is done. It does nothing.
pub fn a_controller_asks_for_its_workflow_alone()
    ensures own { AsksForItsOwn }
    ensures done { EndsWithAStep }
{}
