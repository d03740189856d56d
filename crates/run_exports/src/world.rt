//! Where a vehicle is in the world.

ghost use Rattle.std.specs.Prelude.{◌≡◌, ◌+◌, ◌*◌, ◌^◌, ◌≤◌, ◌++◌, OnOk, unsigned_abs};
ghost use Rattle.std.specs.String.{string_bytes};
ghost use Rattle.run_exports.specs.Decimals.{signed_fixed};
ghost use Rattle.run_exports.specs.World.{across, halves};
ghost use Rattle.run_exports.specs.XoscText.{across_part, along_part, position_tag};

use crate::decimals::{push_millionths, push_sign, push_signed_millionths};
use crate::road::Road;
use osc_base::Sample;
use std::alloc::AllocError;

/// Adds where a sample is in the world.
#[tactic(auto, unfolding(crate::specs::XoscText::position_tag))]
pub fn push_position(text: &mut String, road: Road, sample: &Sample) -> Result<(), AllocError>
    ensures { OnOk result (string_bytes text.new ≡ string_bytes text.old ++ position_tag road sample.now) }
{
    push_along_part(text, sample)?;
    push_across_part(text, road, sample)
}

fn push_along_part(text: &mut String, sample: &Sample) -> Result<(), AllocError>
    ensures { OnOk result (string_bytes text.new ≡ string_bytes text.old ++ along_part sample.now) }
{
    text.push_str("<WorldPosition x=\"")?;
    push_along(text, sample)
}

/// Adds how far along the road a sample is.
fn push_along(text: &mut String, sample: &Sample) -> Result<(), AllocError>
    ensures { OnOk result (string_bytes text.new ≡ string_bytes text.old ++ signed_fixed 6 sample.now.position) }
{
    push_signed_millionths(text, sample.position)
}

fn push_across_part(text: &mut String, road: Road, sample: &Sample) -> Result<(), AllocError>
    ensures { OnOk result (string_bytes text.new ≡ string_bytes text.old ++ across_part road sample.now) }
{
    text.push_str("\" y=\"")?;
    push_across(text, road, sample.lane)?;
    text.push_str("\" z=\"0\" h=\"0\" p=\"0\" r=\"0\"/>")
}

/// Adds how far the middle of a lane is to the left of the road's left edge.
#[tactic(auto, unfolding(crate::specs::World::across))]
fn push_across(text: &mut String, road: Road, lane: i64) -> Result<(), AllocError>
    ensures { OnOk result (string_bytes text.new ≡ string_bytes text.old ++ across road lane) }
{
    let far = halves(road.lanes, lane);
    push_sign(text, far.is_negative())?;
    push_millionths(text, width_of(far.unsigned_abs(), road.lane_width))
}

/// How many halves of a lane the middle of a lane is to the left of the road's left edge.
fn halves(lanes: u32, lane: i64) -> i128
    ensures value { result ≡ halves lanes lane }
    ensures size { unsigned_abs result ≤ 2 ^ 65 }
{
    2 * i128::from(lane) - (2 * i128::from(lanes) + 1)
}

/// How wide so many halves of a lane are, in micrometres.
fn width_of(halves: u128, lane_width: u32) -> u128
    requires { halves ≤ 2 ^ 65 }
    ensures { result ≡ halves * (500 * lane_width) }
{
    halves * (500 * u128::from(lane_width))
}
