// Whether a byte is an ASCII digit.
ghost use Rattle.std.specs.Prelude.{◌≡◌};
ghost use Rattle.base.specs.Text.{digit};

pub fn is_digit(b: u8) -> bool
    ensures { result ≡ digit b }
{
    if b < 0x30 {
        return false;
    }
    b <= 0x39
}
