// The bounds of a picture's sides and codel width (rule 2.1).
ghost use Rattle.std.specs.Prelude.{◌≡◌};
ghost use Rattle.base.specs.Limits.{wrong_side};

// Whether a height, a width or a codel width is refused.
pub fn wrong_side(n: usize) -> bool
    ensures { result ≡ wrong_side n }
{
    if n == 0 {
        return true;
    }
    1024 < n
}
