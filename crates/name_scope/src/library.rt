ghost use Rattle.std.specs.Prelude.{◌≡◌};
ghost use Rattle.name_scope.specs.Library.{library_source};

/// The source of the library, the file that `import osc.standard` brings.
pub fn library_text() -> &'static str
    ensures { result.now ≡ library_source }
{
    "type length is SI(m: 1)
type time is SI(s: 1)
type speed is SI(m: 1, s: -1)
type acceleration is SI(m: 1, s: -2)
unit m of length is SI(m: 1)
unit km of length is SI(m: 1, factor: 1000)
unit s of time is SI(s: 1)
unit ms of time is SI(s: 1, factor: 0.001)
unit min of time is SI(s: 1, factor: 60)
unit mps of speed is SI(m: 1, s: -1)
unit kph of speed is SI(m: 1, s: -1, factor: 0.277777778)
unit mpsps of acceleration is SI(m: 1, s: -2)
actor vehicle:
    max_speed: speed = 50mps with:
        keep(it in [0mps..100mps])
    max_acceleration: acceleration = 10mpsps with:
        keep(it in [0mpsps..20mpsps])
action vehicle.drive
"
}
