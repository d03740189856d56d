//! The road as an ASAM OpenDRIVE file.

ghost use Rattle.std.specs.Prelude.{◌≡◌, ◌+◌, ◌++◌, cond, nat_lt, IfOk, OnOk};
ghost use Rattle.std.specs.String.{string_bytes};
ghost use Rattle.run_exports.specs.XodrParts.{stretch_text};
ghost use Rattle.run_exports.specs.XodrText.{geometry_line, lane, lane_line, lanes_to, plan_part, road_line, width_line, xodr_text};

use crate::decimals::push_thousandths;
use crate::road::Road;
use crate::xodr_parts::{Stretch, push_stretch};
use osc_base::Text;
use std::alloc::{AllocError, Global};

/// A road as a file in ASAM OpenDRIVE 1.6: straight, with all its lanes on the right of its line, and 50 m longer at either end. Out
/// of memory is the only error.
pub fn xodr(alloc: Global, road: Road) -> Result<Text, AllocError>
    ensures { IfOk result (λ text. text ≡ xodr_text road) }
{
    let mut text = String::new(alloc);
    push_plan(&mut text, u64::from(road.metres) + 100)?;
    push_lanes(&mut text, road)?;
    Ok(Text::of(text))
}

fn push_plan(text: &mut String, far: u64) -> Result<(), AllocError>
    ensures { OnOk result (string_bytes text.new ≡ string_bytes text.old ++ plan_part far) }
{
    push_stretch(text, Stretch::Head)?;
    push_road_line(text, far)?;
    push_stretch(text, Stretch::Plan)?;
    push_geometry_line(text, far)
}

fn push_road_line(text: &mut String, far: u64) -> Result<(), AllocError>
    ensures { OnOk result (string_bytes text.new ≡ string_bytes text.old ++ road_line far) }
{
    write!(
        text,
        "  <road name=\"road\" length=\"{far}\" id=\"1\" junction=\"-1\" rule=\"RHT\">\n"
    )
}

fn push_geometry_line(text: &mut String, far: u64) -> Result<(), AllocError>
    ensures { OnOk result (string_bytes text.new ≡ string_bytes text.old ++ geometry_line far) }
{
    write!(
        text,
        "      <geometry s=\"0\" x=\"-50\" y=\"0\" hdg=\"0\" length=\"{far}\"><line/></geometry>\n"
    )
}

fn push_lanes(text: &mut String, road: Road) -> Result<(), AllocError>
    ensures { OnOk result (string_bytes text.new ≡ string_bytes text.old ++ (stretch_text Stretch.Left ++ lanes_to road road.lanes ++ stretch_text Stretch.Tail)) }
{
    push_stretch(text, Stretch::Left)?;
    push_all(text, road)?;
    push_stretch(text, Stretch::Tail)
}

fn push_all(text: &mut String, road: Road) -> Result<(), AllocError>
    ensures { OnOk result (string_bytes text.new ≡ string_bytes text.old ++ lanes_to road road.lanes) }
{
    for before in 0..road.lanes {
        push_lane(text, road, before + 1)?;
    }
    Ok(())
}

#[tactic(auto, unfolding(crate::specs::XodrText::lane))]
fn push_lane(text: &mut String, road: Road, id: u32) -> Result<(), AllocError>
    ensures { OnOk result (string_bytes text.new ≡ string_bytes text.old ++ lane road id) }
{
    push_lane_line(text, id)?;
    push_width_line(text, road.lane_width)?;
    push_stretch(text, right_of(road, id))
}

/// What stands behind the width of a lane.
fn right_of(road: Road, id: u32) -> Stretch
    ensures { result ≡ cond (nat_lt id road.lanes) Stretch.Inner Stretch.Outer }
{
    if id < road.lanes {
        Stretch::Inner
    } else {
        Stretch::Outer
    }
}

fn push_lane_line(text: &mut String, id: u32) -> Result<(), AllocError>
    ensures { OnOk result (string_bytes text.new ≡ string_bytes text.old ++ lane_line id) }
{
    write!(
        text,
        "          <lane id=\"-{id}\" type=\"driving\" level=\"false\">\n"
    )
}

fn push_width_line(text: &mut String, width: u32) -> Result<(), AllocError>
    ensures { OnOk result (string_bytes text.new ≡ string_bytes text.old ++ width_line width) }
{
    push_wide_line(text, u128::from(width))
}

fn push_wide_line(text: &mut String, width: u128) -> Result<(), AllocError>
    ensures { OnOk result (string_bytes text.new ≡ string_bytes text.old ++ width_line width) }
{
    text.push_str("            <width sOffset=\"0\" a=\"")?;
    push_thousandths(text, width)?;
    text.push_str("\" b=\"0\" c=\"0\" d=\"0\"/>\n")
}
