//! Exact numbers of seventeen decimal places.
ghost use Rattle.std.specs.Prelude.{◌<◌};

/// A number of 17 decimal places, exactly: a sign, a whole number, and a part of one in units of 10^-17. Zero may have
/// either sign.
#[derive(Clone, Copy, Debug)]
pub struct Amount {
    pub negative: bool,
    pub whole: u128,
    pub part: u64,
    pub ghost few: { part < 100000000000000000 },
}
