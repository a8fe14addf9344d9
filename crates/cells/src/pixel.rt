// Pixel cells.
ghost use Rattle.std.specs.Prelude.{◌≡◌, ◌≤◌, true, false, OnOk, IfErr};
ghost use Rattle.levels.specs.Levels.{in_unit, whole64};
ghost use Rattle.cells.specs.Pixels.{pixel_reading};
ghost use Rattle.cells.specs.Ranges.{pixel_in_range};

use crate::cell::Cell;
use words::Fault;

// A cell by the darkest and the lightest level of light in it, each from 0 to 1.
#[derive(Clone, Copy, Debug, PartialEq, Drop)]
pub struct Pixel {
    pub darkest: f32,
    pub lightest: f32,
}

// Finds fault with a level that is not a number from 0 to 1; negative zero is 0.
fn check_level(level: f32) -> Result<(), Fault>
    ensures inside { OnOk result (in_unit level ≡ true) }
    ensures outside { IfErr result (λ fault. (in_unit level ≡ false) × (fault ≡ Fault.Level level)) }
{
    if (0.0..=1.0).contains(&level) {
        Ok(())
    } else {
        Err(Fault::Level(level))
    }
}

// The whole part of 64 times a level. `abs` makes 0 of negative zero.
fn sixtyfourths(level: f32) -> u8
    requires { in_unit level ≡ true }
    ensures value { result ≡ whole64 level }
    ensures bound { result ≤ 64 }
{
    // A rule of the project: scaled by a power of two, truncated and cast.
    (level.abs() * 64.0).trunc() as u8
}

impl Cell for Pixel {
    ghost reading = { λ cell. pixel_reading cell.darkest cell.lightest };

    ghost bounded = { λ cell. pixel_in_range cell.darkest cell.lightest };

    // The whole parts of 64 times the two levels, together, less 64.
    fn read(&self) -> Result<i8, Fault> {
        let Pixel { darkest, lightest } = *self;
        if darkest.is_nan() || lightest.is_nan() {
            return Err(Fault::NotANumber);
        }
        check_level(darkest)?;
        check_level(lightest)?;
        if darkest > lightest {
            return Err(Fault::Levels(darkest, lightest));
        }
        // At most 64 each: the cast of a level is proved to a `u8` alone, and `From` goes from no `u8` to an `i8`.
        Ok(sixtyfourths(darkest) as i8 - 64 + sixtyfourths(lightest) as i8)
    }
}
