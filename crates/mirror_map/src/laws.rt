//! What holds of the definitions, as functions that do nothing.
ghost use Rattle.mirror_map.specs.Legs.{ClonesHaveTheRun};

/// A clone writes the sectors of its bio, each at the same sector of its member, with its data and its place in the write's segments; it is
/// of the same write, by the same writer.
pub fn clones_have_the_run()
    ensures { ClonesHaveTheRun }
{}
