//! The numbers of the Sum, each once. They are defined in `specs/Limits.antt`, and `hold` says that each constant is the number
//! of its name.
ghost use Rattle.std.specs.Prelude.{◌≡◌};
ghost use Rattle.dali_lagrange.specs.Limits.{scale, gain_parts};

/// The scale of multipliers: this many to the centavo. A Sum below it isn't settled further.
pub const SCALE: u64 = 4096;

/// A change of a multiplier is a gain where it takes at least one of so many equal parts of the Sum.
pub const GAIN_PARTS: u64 = 1024;

/// Does nothing. It stands for its clauses: each constant is the number of its name, so one that is one less or one more
/// is refused here.
pub fn hold()
    ensures scale { SCALE ≡ scale }
    ensures gain { GAIN_PARTS ≡ gain_parts }
{}
