//! Laws on what is wrong with a run.

ghost use Rattle.instance_check.specs.Rightness.{InstancesAloneAreRight};

/// The law that nothing is wrong with a run exactly if it is an instance of the scene.
pub fn instances_alone_are_right()
    ensures { InstancesAloneAreRight }
{}
