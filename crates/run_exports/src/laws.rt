//! Laws on what is read from an exported run.

ghost use Rattle.run_exports.specs.RoundTrips.{MiddlesTellLanes, PagesAreReadBack, RoadsAreReadBack, TablesAreReadBack, TrajectoriesAreReadBack};

/// The law that the rows of a run's table are all samples of its vehicles, each with its time.
pub fn tables_are_read_back()
    ensures { TablesAreReadBack }
{}

/// The law that each vehicle of an OpenSCENARIO XML file that isn't left has a corner for each of its samples, with its time, its
/// position and the middle of its lane.
pub fn trajectories_are_read_back()
    ensures { TrajectoriesAreReadBack }
{}

/// The law that no two lanes have one middle.
pub fn middles_tell_lanes()
    ensures { MiddlesTellLanes }
{}

/// The law that an OpenDRIVE file has as many lanes as its road, each of its width, and 100 m more than its length.
pub fn roads_are_read_back()
    ensures { RoadsAreReadBack }
{}

/// The law that a page holds the run's own text.
pub fn pages_are_read_back()
    ensures { PagesAreReadBack }
{}
