//! Whether vehicles move as they may.

ghost use Rattle.std.specs.Prelude.{◌≡◌, ◌+◌, ◌∷◌, ◌++◌, [], pos, find, int_le, not, option_copied, unwrap_or, IfOk};
ghost use Rattle.std.specs.List.{list_all, range_with_len};
ghost use Rattle.osc_base.specs.Paths.{then_name as with_name};
ghost use Rattle.field_flatten.specs.composition.Items.{course_of, field_number, motion_holds, still as still_sample};
ghost use Rattle.field_flatten.specs.composition.Movement.{moves as may_move, is_step as may_step};
ghost use Rattle.field_flatten.specs.composition.Scenes.{max_acceleration as acceleration_path, max_speed as speed_path, vehicles as all_vehicles};
ghost use Rattle.field_flatten.specs.composition.Slots.{ticks_of};
ghost use Rattle.field_flatten.specs.composition.RunParts.{samples_in};
ghost use Rattle.run_values.specs.SeenNumbers.{scene_in, run_in};
ghost use Rattle.run_values.specs.SeenCourses.{sample_at as listed_at, seen_course};

use crate::numbers::Numbers;
use osc_base::{Path, Sample, Step, Text};
use run_clauses::is_step;
use std::alloc::{AllocError, Global};

/// The course that a run lists for a vehicle, with the limits of the vehicle.
#[derive(Drop)]
pub(crate) struct Course<'a> {
    tick: u32,
    ticks: u32,
    end: u32,
    max_speed: i64,
    max_acceleration: i64,
    samples: &'a [Sample],
}

/// The sample at a tick.
pub fn sample_at(samples: &[Sample], tick: usize) -> Sample
    ensures { result ≡ listed_at samples.now tick }
{
    match samples.get(tick) {
        Some(sample) => *sample,
        None => still(),
    }
}

/// The sample that counts if a run lists none.
fn still() -> Sample
    ensures { result ≡ still_sample }
{
    Sample {
        lane: 0,
        position: 0,
        speed: 0,
    }
}

impl Course<'_> {
    /// At a tick up to the end the vehicle isn't too fast, and at a tick before the end it steps to the next as it may.
    fn moves(&self, tick: u32) -> bool
        ensures { result ≡ may_move (seen_course self.now) tick }
    {
        (!(tick <= self.end) || self.is_slow(tick))
            && (!(tick < self.ticks) || (!(tick < self.end) || self.steps(tick)))
    }

    /// The vehicle isn't too fast at the tick.
    fn is_slow(&self, tick: u32) -> bool
        ensures { result ≡ int_le ((seen_course self.now).sample tick).speed self.now.max_speed }
    {
        sample_at(self.samples, tick as usize).speed <= self.max_speed
    }

    /// The vehicle steps from the tick to the next as it may.
    fn steps(&self, tick: u32) -> bool
        ensures { result ≡ may_step self.now.tick self.now.max_acceleration ((seen_course self.now).sample tick) ((seen_course self.now).sample (tick + 1)) }
    {
        let now = sample_at(self.samples, tick as usize);
        let next = sample_at(self.samples, tick as usize + 1);
        is_step(self.tick, self.max_acceleration, &now, &next)
    }

    /// The vehicle moves as it may at every tick.
    fn always_moves(&self) -> bool
        ensures { result ≡ list_all (may_move (seen_course self.now)) (range_with_len 0 (self.now.ticks + 1)) }
    {
        for tick in 0..self.ticks {
            if !self.moves(tick) {
                return false;
            }
        }
        self.moves(self.ticks)
    }
}

/// The course with these ticks, limits and samples.
fn course_with<'a>(
    tick: u32,
    ticks: u32,
    end: u32,
    max_speed: i64,
    max_acceleration: i64,
    samples: &'a [Sample],
) -> Course<'a>
    ensures tick { result.tick ≡ tick }
    ensures ticks { result.ticks ≡ ticks }
    ensures end { result.end ≡ end }
    ensures max_speed { result.max_speed ≡ max_speed }
    ensures max_acceleration { result.max_acceleration ≡ max_acceleration }
    ensures samples { result.samples.now ≡ samples.now }
{
    Course {
        tick,
        ticks,
        end,
        max_speed,
        max_acceleration,
        samples,
    }
}

/// The path with a name after it.
fn then_name(alloc: Global, path: &Path, name: &str) -> Result<Path, AllocError>
    ensures { IfOk result (λ p. p ≡ with_name path.now name.now) }
{
    let mut longer = path.copy(alloc)?;
    longer.steps.push(Step::Name(Text::copy(alloc, name)?))?;
    Ok(longer)
}

impl Numbers<'_> {
    /// The number of the field at a path, 0 if the run lists none.
    fn field(&self, path: &Path) -> i64
        ensures { result ≡ field_number (scene_in self.now) (run_in self.now) path.now }
    {
        match self.number(path) {
            Some(number) => number,
            None => 0,
        }
    }

    /// The samples of the vehicle, none if the run doesn't list it.
    pub fn samples(&self, vehicle: &Path) -> &[Sample]
        ensures { result.now ≡ unwrap_or (samples_in (run_in self.now) vehicle.now) [] }
    {
        match self.run.samples(vehicle) {
            Some(samples) => samples,
            None => &[],
        }
    }

    /// The course of a vehicle whose limits stand at these paths.
    fn course_within(&self, vehicle: &Path, speed: &Path, acceleration: &Path) -> Course<'_>
        requires speed { speed.now ≡ speed_path vehicle.now }
        requires acceleration { acceleration.now ≡ acceleration_path vehicle.now }
        ensures { seen_course result ≡ course_of (scene_in self.now) (run_in self.now) vehicle.now }
    {
        course_with(
            self.run.tick(),
            self.scene.setting().ticks,
            self.run.end(),
            self.field(speed),
            self.field(acceleration),
            self.samples(vehicle),
        )
    }

    /// The course of a vehicle.
    fn course(&self, alloc: Global, vehicle: &Path) -> Result<Course<'_>, AllocError>
        ensures { IfOk result (λ c. seen_course c ≡ course_of (scene_in self.now) (run_in self.now) vehicle.now) }
    {
        let speed = then_name(alloc, vehicle, "max_speed")?;
        let acceleration = then_name(alloc, vehicle, "max_acceleration")?;
        Ok(self.course_within(vehicle, &speed, &acceleration))
    }

    /// The vehicle, which is there, moves as it may at every tick.
    fn always_moves(&self, alloc: Global, vehicle: &Path) -> Result<bool, AllocError>
        ensures { IfOk result (λ b. b ≡ list_all (may_move (course_of (scene_in self.now) (run_in self.now) vehicle.now)) (ticks_of (scene_in self.now).setting)) }
    {
        let course = self.course(alloc, vehicle)?;
        Ok(course.always_moves())
    }

    /// The vehicle moves as it may at every tick, if it is there.
    fn moves(&self, alloc: Global, vehicle: &Path) -> Result<bool, AllocError>
        ensures { IfOk result (λ b. b ≡ list_all (motion_holds (scene_in self.now) (run_in self.now) vehicle.now) (ticks_of (scene_in self.now).setting)) }
    {
        if self.run.is_there(self.scene, vehicle) {
            self.always_moves(alloc, vehicle)
        } else {
            Ok(true)
        }
    }

    /// The first vehicle that is there and doesn't move as it may.
    pub fn first_unmoving(&self, alloc: Global) -> Result<Option<&Path>, AllocError>
        ensures { IfOk result (λ v. option_copied v ≡ find (λ v. not (list_all (motion_holds (scene_in self.now) (run_in self.now) v) (ticks_of (scene_in self.now).setting))) (all_vehicles (scene_in self.now))) }
    {
        let mut rest = self.scene.vehicles();
        while let [vehicle, later @ ..] = rest {
            if !self.moves(alloc, vehicle)? {
                return Ok(Some(vehicle));
            }
            rest = later;
        }
        Ok(None)
    }
}
