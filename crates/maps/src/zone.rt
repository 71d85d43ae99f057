// One zone of the 64, as a map that asks for it.
ghost use Rattle.std.specs.Prelude.{◌<◌};

#[derive(Clone, Copy)]
pub struct AtZone {
    pub zone: u8,
    ghost within: { zone < 64 },
}
