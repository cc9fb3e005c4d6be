// The cells of a lent slice from an index up to another, set to one value.
ghost use Rattle.std.specs.Prelude.{◌≡◌, ◌≤◌, length};
ghost use Rattle.base.specs.Lent.{filled};

// The library's `fill` asks for a `clone` that cannot fail, which `Copy` alone does not promise.
pub fn fill<T: Copy>(d: &mut [T], from: usize, to: usize, v: T)
    requires { (from ≤ to) × (to ≤ length d.old) }
    ensures { d.new ≡ filled from to v d.old }
{
    for cell in &mut d[from..to] {
        *cell = v;
    }
}
