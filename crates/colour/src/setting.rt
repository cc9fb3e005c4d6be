// The settings for unknown pixels: 1 refuses them, 2 makes them white, 3 black; 0, the default, acts as 2 (rule 1.2).
// A number and no enum: `substitute` and `colour_under` answer for every number, and an enum would ask more.
ghost use Rattle.std.specs.Prelude.{◌≡◌};
ghost use Rattle.colour.specs.Setting.{no_setting, refuses, substitute};

use crate::palette::{BLACK, WHITE};

// For callers that refuse unknown pixels, as the run program does.
pub const REFUSE_UNKNOWN: u8 = 1;

const UNKNOWN_IS_BLACK: u8 = 3;

// Whether a number is no setting.
pub fn no_setting(setting: u8) -> bool
    ensures { result ≡ no_setting setting }
{
    3 < setting
}

// Whether an unknown pixel is refused.
pub fn refuses(setting: u8) -> bool
    ensures { result ≡ refuses setting }
{
    setting == REFUSE_UNKNOWN
}

// The colour of an unknown pixel that is not refused.
pub fn substitute(setting: u8) -> u8
    ensures { result ≡ substitute setting }
{
    if setting == UNKNOWN_IS_BLACK {
        return BLACK;
    }
    WHITE
}
