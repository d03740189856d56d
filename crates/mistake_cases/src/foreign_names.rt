//! Names of ASAM's domain library, and units, that this profile doesn't have.

use crate::form::{Help, filled};
use crate::text_parts::{first_word, is_number, last_word, unit_of};
use crate::view::View;
use osc_base::FaultCode;
use std::alloc::{AllocError, Global};

/// Names, and what serves in their place. In the text `{word}` stands for the name.
type Foreign = (&'static [&'static str], &'static str);

/// What begins each text on a name of the domain library.
const HEAD: &str = " is of ASAM's domain library, and not in this profile.\n";

/// Types, actions, modifiers and fields of the domain library.
const NAMES: &[Foreign] = &[
    (
        &["keep_lane"],
        "`lane(n)` with a field `n: uint` keeps one lane, whichever it is.",
    ),
    (
        &["keep_speed"],
        "`speed(v)` with a field `v: speed` keeps one speed, whichever it is.",
    ),
    (
        &["keep_position", "remain_stationary"],
        "`speed(0mps)` keeps a vehicle where it is.",
    ),
    (
        &["change_lane"],
        "A vehicle changes lanes between two phases: `lane(1)` in the first, and `lane(2)` in the second.\nWithin a phase `lane(2, at: end)` says where it ends.",
    ),
    (
        &["change_speed", "assign_speed"],
        "`speed(5mps, at: end)` says which speed is reached at the end of a phase.",
    ),
    (
        &[
            "acceleration",
            "change_acceleration",
            "assign_acceleration",
            "keep_acceleration",
        ],
        "A vehicle's `max_acceleration` limits it: `keep(ego.max_acceleration <= 2mpsps)`. `speed(..)` with\n`at: start` and `at: end` says how the speed changes in a phase.",
    ),
    (
        &[
            "follow_lane",
            "follow_path",
            "follow_trajectory",
            "move",
            "physical_movement",
            "turn",
        ],
        "A vehicle has one action: `ego.drive() with:`, and the modifiers `lane(..)`, `speed(..)` and\n`position(..)` in the lines below it.",
    ),
    (
        &["assign_position", "assign_orientation"],
        "`position(100m, at: start)` says where a vehicle is at the start of a `drive`.",
    ),
    (
        &[
            "change_space_gap",
            "keep_space_gap",
            "space_gap",
            "distance",
            "change_time_headway",
            "keep_time_headway",
            "time_headway",
            "time_to_collision",
        ],
        "`position([5m..20m], behind: c)` says how far a vehicle is behind `c`.",
    ),
    (
        &["avoid_collisions", "collides"],
        "Vehicles are points, and none is kept apart: `position([5m..100m], behind: c)` keeps a distance.",
    ),
    (
        &[
            "lateral",
            "lateral_position",
            "yaw",
            "orientation",
            "physical_placement",
        ],
        "A vehicle is in the middle of a lane: `lane(1)` says in which.",
    ),
    (
        &[
            "along",
            "along_trajectory",
            "path",
            "map",
            "road",
            "route",
            "path_min_driving_lanes",
            "path_min_lanes",
            "path_curve",
            "path_length",
            "path_explicit",
            "path_over_highway_junction",
            "path_over_junction",
            "path_has_sign",
            "path_different_origin",
            "path_different_dest",
            "junction",
            "crossing",
            "lane_section",
        ],
        "There is one straight road, whose lanes and length are options: `--lanes 3 --road 1000`.",
    ),
    (
        &[
            "person",
            "pedestrian",
            "animal",
            "walk",
            "vru",
            "stationary_object",
            "movable_object",
            "physical_object",
            "traffic_participant",
        ],
        "There are vehicles alone. One with a low speed may stand for it: `keep(p.max_speed == 2mps)`.",
    ),
    (
        &[
            "environment",
            "weather",
            "rain",
            "snow",
            "fog",
            "wind",
            "time_of_day",
            "celestial_light_source",
        ],
        "A field of an enum of your own can name it, as in `enum sky: [dry, rain]`. No vehicle heeds it.",
    ),
    (
        &[
            "traffic_light",
            "traffic_sign",
            "traffic_infrastructure",
            "signal",
        ],
        "There are no signals on the road. A field of an enum of your own can name one, and a `keep` can read it.",
    ),
    (
        &[
            "car",
            "truck",
            "bus",
            "van",
            "motorcycle",
            "bicycle",
            "trailer",
            "emergency_vehicle",
        ],
        "Each kind is a vehicle of your own: `actor {word} inherits vehicle`.",
    ),
    (
        &[
            "logging",
            "log",
            "log_info",
            "osc_actor",
            "any_lane",
            "odr_point",
            "xyz_point",
            "route_point",
            "pose_3d",
            "orientation_3d",
            "position_3d",
        ],
        "Nothing serves in its place.",
    ),
];

/// Fields of a vehicle in the domain library.
const FIELDS: &[Foreign] = &[(
    &[
        "category",
        "vehicle_category",
        "color",
        "colour",
        "length",
        "width",
        "height",
        "bounding_box",
        "model",
        "intended_infrastructure",
        "role",
        "mass",
    ],
    "A vehicle has the fields `max_speed` and `max_acceleration`. `extend vehicle:` adds others, as\n`{word}: float` in the line below it.",
)];

/// Types that users expect.
const TYPES: &[Foreign] = &[
    (
        &["mass"],
        "Declare it: `type mass is SI(kg: 1)`, and `unit kg of mass is SI(kg: 1)`.",
    ),
    (
        &["angle"],
        "Declare it: `type angle is SI(rad: 1)`, and `unit rad of angle is SI(rad: 1)`.",
    ),
    (
        &["angular_rate"],
        "Declare it: `type angular_rate is SI(rad: 1, s: -1)`, and a unit of it.",
    ),
    (
        &["jerk"],
        "Declare it: `type jerk is SI(m: 1, s: -3)`, and a unit of it.",
    ),
    (
        &["temperature"],
        "Declare it: `type temperature is SI(K: 1)`, and `unit K of temperature is SI(K: 1)`.",
    ),
    (
        &["integer", "number", "long"],
        "Whole numbers are of the type `int`, or `uint` from 0 on.",
    ),
    (
        &["double", "real", "decimal"],
        "Numbers of thousandths are of the type `float`.",
    ),
    (
        &["boolean", "Boolean", "logical"],
        "Truth values are of the type `bool`.",
    ),
    (
        &["str", "text", "String"],
        "Texts are of the type `string`.",
    ),
];

/// Units that users expect.
const UNITS: &[Foreign] = &[
    (
        &["m", "km", "s", "ms", "min", "mps", "kph", "mpsps"],
        "The library declares the unit `{unit}`: write `import osc.standard` at the top of the file.",
    ),
    (
        &["kmh", "kmph", "kmhr", "km_h", "kph_", "KPH", "kmH"],
        "Write `{digits}kph`: `kph` is kilometres an hour.",
    ),
    (
        &["ms2", "mss", "mps2", "mpss", "mpsq"],
        "Write `{digits}mpsps`: `mpsps` is metres a second squared.",
    ),
    (
        &["mp", "mpS", "MPS", "mpsec"],
        "Write `{digits}mps`: `mps` is metres a second.",
    ),
    (
        &["sec", "secs", "second", "seconds", "S"],
        "Write `{digits}s`.",
    ),
    (&["msec", "millis"], "Write `{digits}ms`."),
    (&["mins", "minute", "minutes"], "Write `{digits}min`."),
    (
        &["meter", "meters", "metre", "metres", "M"],
        "Write `{digits}m`.",
    ),
    (
        &["mph"],
        "Declare it: `unit mph of speed is SI(m: 1, s: -1, factor: 0.44704)`.",
    ),
    (
        &["kmphps"],
        "Declare it: `unit kmphps of acceleration is SI(m: 1, s: -2, factor: 0.277777778)`.",
    ),
    (
        &["mphps"],
        "Declare it: `unit mphps of acceleration is SI(m: 1, s: -2, factor: 0.44704)`.",
    ),
    (
        &["cm"],
        "Declare it: `unit cm of length is SI(m: 1, factor: 0.01)`.",
    ),
    (
        &["mm"],
        "Declare it: `unit mm of length is SI(m: 1, factor: 0.001)`.",
    ),
    (
        &["ft", "feet", "foot"],
        "Declare it: `unit ft of length is SI(m: 1, factor: 0.3048)`.",
    ),
    (
        &["mi", "mile", "miles"],
        "Declare it: `unit mi of length is SI(m: 1, factor: 1609.344)`.",
    ),
    (
        &["h", "hr", "hour", "hours"],
        "Declare it: `unit {unit} of time is SI(s: 1, factor: 3600)`.",
    ),
    (
        &["g"],
        "Declare it: `unit g of acceleration is SI(m: 1, s: -2, factor: 9.80665)`.",
    ),
    (
        &["deg", "degree", "degrees"],
        "Declare it: `type angle is SI(rad: 1)` and `unit deg of angle is SI(rad: 1, factor: 0.0174532925)`.",
    ),
    (
        &["rad"],
        "Declare it: `type angle is SI(rad: 1)` and `unit rad of angle is SI(rad: 1)`.",
    ),
    (
        &["kg"],
        "Declare it: `type mass is SI(kg: 1)` and `unit kg of mass is SI(kg: 1)`.",
    ),
    (
        &["t"],
        "Declare it: `type mass is SI(kg: 1)` and `unit t of mass is SI(kg: 1, factor: 1000)`.",
    ),
    (
        &["e", "E"],
        "A number has no exponent: write `0.001` for `1e-3`.",
    ),
];

/// What is said of a name of the domain library or of a unit, if the fault is about one of the tables. `None` if it isn't.
pub fn foreign_help(alloc: Global, view: &View<'_>) -> Result<Option<Help>, AllocError> {
    match view.code {
        FaultCode::Unknown if is_number(view.word()) => unit_help(alloc, view),
        FaultCode::Unknown => unknown_help(alloc, view),
        FaultCode::Syntax => name_help(alloc, view, called(view)),
        _ => Ok(None),
    }
}

fn unknown_help(alloc: Global, view: &View<'_>) -> Result<Option<Help>, AllocError> {
    let before = view.before.trim_end();
    if before.ends_with('.') {
        if let Some(text) = row_of(FIELDS, view.word()) {
            return Ok(Some(Help::of(filled(alloc, text, view)?)));
        }
    } else if before.ends_with(':') || last_word(before) == "of" {
        if let Some(text) = row_of(TYPES, view.word()) {
            return Ok(Some(Help::of(filled(alloc, text, view)?)));
        }
    }
    name_help(alloc, view, view.word())
}

/// The name at the beginning of a line, or before the bracket directly before the place.
fn called<'a>(view: &View<'a>) -> &'a str {
    match view.before.strip_suffix('(') {
        Some(before) => last_word(before),
        None if view.before.trim().is_empty() => first_word(view.onward),
        None => "",
    }
}

/// The text beside the first row that has a name.
fn row_of(table: &[Foreign], name: &str) -> Option<&'static str> {
    for (names, text) in table {
        if names.contains(&name) {
            return Some(*text);
        }
    }
    None
}

fn name_help(alloc: Global, view: &View<'_>, name: &str) -> Result<Option<Help>, AllocError> {
    let Some(serves) = row_of(NAMES, name) else {
        return Ok(None);
    };
    let mut text = format!(in alloc; "`{name}`")?;
    text.push_str(HEAD)?;
    text.push_str(filled(alloc, serves, view)?.as_str())?;
    Ok(Some(Help::of(text)))
}

fn unit_help(alloc: Global, view: &View<'_>) -> Result<Option<Help>, AllocError> {
    let unit = unit_of(view.number());
    match row_of(UNITS, unit) {
        Some(text) => Ok(Some(Help::of(filled(alloc, text, view)?))),
        None => Ok(None),
    }
}
