//! The parts of an OpenDRIVE file that are the same in each.

ghost use Rattle.std.specs.Prelude.{◌≡◌, ◌++◌, OnOk};
ghost use Rattle.std.specs.String.{string_bytes};
ghost use Rattle.run_exports.specs.XodrParts.{stretch_text};

use std::alloc::AllocError;

/// A part that is the same in each file.
#[derive(Clone, Copy)]
pub enum Stretch {
    /// What stands before the road.
    Head,
    /// What stands before its line.
    Plan,
    /// What stands between its line and its lanes: its left edge.
    Left,
    /// What stands behind the width of a lane that has another on its right.
    Inner,
    /// The same of the last lane.
    Outer,
    /// What stands behind the lanes.
    Tail,
}

pub(crate) const HEAD: &str = concat!(
    "<?xml version=\"1.0\" encoding=\"UTF-8\"?>\n",
    "<OpenDRIVE>\n",
    "  <header revMajor=\"1\" revMinor=\"6\" name=\"osc\" version=\"1.00\" date=\"2000-01-01T00:00:00\" north=\"0\" south=\"0\" east=\"0\" west=\"0\"/>\n",
);

pub(crate) const PLAN: &str = concat!("    <planView>\n",);

pub(crate) const LEFT: &str = concat!(
    "    </planView>\n",
    "    <lanes>\n",
    "      <laneSection s=\"0\">\n",
    "        <center>\n",
    "          <lane id=\"0\" type=\"none\" level=\"false\">\n",
    "            <roadMark sOffset=\"0\" type=\"solid\" weight=\"standard\" color=\"standard\" width=\"0.12\" laneChange=\"none\"/>\n",
    "          </lane>\n",
    "        </center>\n",
    "        <right>\n",
);

pub(crate) const INNER: &str = concat!(
    "            <roadMark sOffset=\"0\" type=\"broken\" weight=\"standard\" color=\"standard\" width=\"0.12\" laneChange=\"both\"/>\n",
    "          </lane>\n",
);

pub(crate) const OUTER: &str = concat!(
    "            <roadMark sOffset=\"0\" type=\"solid\" weight=\"standard\" color=\"standard\" width=\"0.12\" laneChange=\"none\"/>\n",
    "          </lane>\n",
);

pub(crate) const TAIL: &str = concat!(
    "        </right>\n",
    "      </laneSection>\n",
    "    </lanes>\n",
    "  </road>\n",
    "</OpenDRIVE>\n",
);

/// Adds a part.
pub fn push_stretch(text: &mut String, stretch: Stretch) -> Result<(), AllocError>
    ensures { OnOk result (string_bytes text.new ≡ string_bytes text.old ++ stretch_text stretch) }
{
    text.push_str(stretch_text(stretch))
}

#[tactic(auto, unfolding(crate::specs::XodrParts::stretch_text))]
fn stretch_text(stretch: Stretch) -> &'static str
    ensures { result.now ≡ stretch_text stretch }
{
    match stretch {
        Stretch::Head => HEAD,
        Stretch::Plan => PLAN,
        Stretch::Left => LEFT,
        Stretch::Inner => INNER,
        Stretch::Outer => OUTER,
        Stretch::Tail => TAIL,
    }
}
