//! The parts of an OpenSCENARIO XML file that are the same in each.

ghost use Rattle.std.specs.Prelude.{◌≡◌, ◌++◌, OnOk};
ghost use Rattle.std.specs.String.{string_bytes};
ghost use Rattle.run_exports.specs.XoscParts.{part_text};

use std::alloc::AllocError;

/// A part that is the same in each file.
#[derive(Clone, Copy)]
pub enum Part {
    /// What stands before the vehicles.
    Head,
    /// What stands in each vehicle. Its limits are the greatest that a scenario can ask for.
    Vehicle,
    /// What stands between the vehicles and where they start.
    Storyboard,
    /// What stands before the place where a vehicle starts.
    Teleport,
    /// What stands between that place and how fast it starts.
    Speed,
    /// What stands behind that.
    Started,
    /// What stands between where vehicles start and which lines they follow.
    Story,
    /// What stands between a vehicle and the line that it follows.
    Event,
    /// What stands before the corners of that line.
    Shape,
    /// What stands behind the place of a corner.
    Corner,
    /// What stands behind the corners. The line is followed from time 0 on.
    Followed,
    /// What stands between those lines and the time at which the run ends.
    Stop,
    /// What stands behind that time.
    End,
}

pub(crate) const HEAD: &str = concat!(
    "<?xml version=\"1.0\" encoding=\"UTF-8\"?>\n",
    "<OpenSCENARIO>\n",
    "  <FileHeader revMajor=\"1\" revMinor=\"1\" date=\"2000-01-01T00:00:00\" description=\"A run that osc found\" author=\"osc\"/>\n",
    "  <ParameterDeclarations/>\n",
    "  <CatalogLocations/>\n",
    "  <RoadNetwork>\n",
    "    <LogicFile filepath=\"road.xodr\"/>\n",
    "  </RoadNetwork>\n",
    "  <Entities>\n",
);

pub(crate) const VEHICLE: &str = concat!(
    "        <ParameterDeclarations/>\n",
    "        <BoundingBox>\n",
    "          <Center x=\"1.4\" y=\"0\" z=\"0.75\"/>\n",
    "          <Dimensions width=\"1.8\" length=\"4.5\" height=\"1.5\"/>\n",
    "        </BoundingBox>\n",
    "        <Performance maxSpeed=\"100\" maxAcceleration=\"20\" maxDeceleration=\"20\"/>\n",
    "        <Axles>\n",
    "          <FrontAxle maxSteering=\"0.5\" wheelDiameter=\"0.6\" trackWidth=\"1.6\" positionX=\"2.8\" positionZ=\"0.3\"/>\n",
    "          <RearAxle maxSteering=\"0\" wheelDiameter=\"0.6\" trackWidth=\"1.6\" positionX=\"0\" positionZ=\"0.3\"/>\n",
    "        </Axles>\n",
    "        <Properties/>\n",
    "      </Vehicle>\n",
    "    </ScenarioObject>\n",
);

pub(crate) const STORYBOARD: &str = concat!(
    "  </Entities>\n",
    "  <Storyboard>\n",
    "    <Init>\n",
    "      <Actions>\n",
);

pub(crate) const TELEPORT: &str = concat!(
    "          <PrivateAction>\n",
    "            <TeleportAction>\n",
);

pub(crate) const SPEED: &str = concat!(
    "            </TeleportAction>\n",
    "          </PrivateAction>\n",
    "          <PrivateAction>\n",
    "            <LongitudinalAction>\n",
    "              <SpeedAction>\n",
    "                <SpeedActionDynamics dynamicsShape=\"step\" dynamicsDimension=\"time\" value=\"0\"/>\n",
    "                <SpeedActionTarget>\n",
);

pub(crate) const STARTED: &str = concat!(
    "                </SpeedActionTarget>\n",
    "              </SpeedAction>\n",
    "            </LongitudinalAction>\n",
    "          </PrivateAction>\n",
    "        </Private>\n",
);

pub(crate) const STORY: &str = concat!(
    "      </Actions>\n",
    "    </Init>\n",
    "    <Story name=\"run\">\n",
    "      <Act name=\"run\">\n",
);

pub(crate) const EVENT: &str = concat!(
    "          <Maneuver name=\"drive\">\n",
    "            <Event name=\"drive\" priority=\"overwrite\" maximumExecutionCount=\"1\">\n",
    "              <Action name=\"drive\"><PrivateAction><RoutingAction><FollowTrajectoryAction>\n",
    "              <TrajectoryRef>\n",
);

pub(crate) const SHAPE: &str = concat!(
    "                <ParameterDeclarations/>\n",
    "                <Shape><Polyline>\n",
);

pub(crate) const CORNER: &str = "</Position></Vertex>\n";

pub(crate) const FOLLOWED: &str = concat!(
    "                </Polyline></Shape>\n",
    "                </Trajectory>\n",
    "              </TrajectoryRef>\n",
    "              <TimeReference>\n",
    "                <Timing domainAbsoluteRelative=\"absolute\" scale=\"1\" offset=\"0\"/>\n",
    "              </TimeReference>\n",
    "              <TrajectoryFollowingMode followingMode=\"position\"/>\n",
    "              </FollowTrajectoryAction></RoutingAction></PrivateAction></Action>\n",
    "              <StartTrigger>\n",
    "                <ConditionGroup>\n",
    "                  <Condition name=\"start\" delay=\"0\" conditionEdge=\"none\">\n",
    "                    <ByValueCondition>\n",
    "                      <SimulationTimeCondition value=\"0\" rule=\"greaterOrEqual\"/>\n",
    "                    </ByValueCondition>\n",
    "                  </Condition>\n",
    "                </ConditionGroup>\n",
    "              </StartTrigger>\n",
    "            </Event>\n",
    "          </Maneuver>\n",
    "        </ManeuverGroup>\n",
);

pub(crate) const STOP: &str = concat!(
    "        <StartTrigger>\n",
    "          <ConditionGroup>\n",
    "            <Condition name=\"start\" delay=\"0\" conditionEdge=\"none\">\n",
    "              <ByValueCondition>\n",
    "                <SimulationTimeCondition value=\"0\" rule=\"greaterOrEqual\"/>\n",
    "              </ByValueCondition>\n",
    "            </Condition>\n",
    "          </ConditionGroup>\n",
    "        </StartTrigger>\n",
    "      </Act>\n",
    "    </Story>\n",
    "    <StopTrigger>\n",
    "      <ConditionGroup>\n",
    "        <Condition name=\"end\" delay=\"0\" conditionEdge=\"none\">\n",
    "          <ByValueCondition>\n",
);

pub(crate) const END: &str = concat!(
    "          </ByValueCondition>\n",
    "        </Condition>\n",
    "      </ConditionGroup>\n",
    "    </StopTrigger>\n",
    "  </Storyboard>\n",
    "</OpenSCENARIO>\n",
);

/// Adds a part.
pub fn push_part(text: &mut String, part: Part) -> Result<(), AllocError>
    ensures { OnOk result (string_bytes text.new ≡ string_bytes text.old ++ part_text part) }
{
    text.push_str(part_text(part))
}

#[tactic(auto, unfolding(crate::specs::XoscParts::part_text))]
fn part_text(part: Part) -> &'static str
    ensures { result.now ≡ part_text part }
{
    match part {
        Part::Head => HEAD,
        Part::Vehicle => VEHICLE,
        Part::Storyboard => STORYBOARD,
        Part::Teleport => TELEPORT,
        Part::Speed => SPEED,
        Part::Started => STARTED,
        Part::Story => STORY,
        Part::Event => EVENT,
        Part::Shape => SHAPE,
        Part::Corner => CORNER,
        Part::Followed => FOLLOWED,
        Part::Stop => STOP,
        Part::End => END,
    }
}
