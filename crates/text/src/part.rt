// A part of a slice.
ghost use Rattle.std.specs.Prelude.{◌≡◌, take};

// The first n elements, or all of them where there are fewer: a caller needs no bound on n.
pub fn front<T>(s: &[T], n: usize) -> &[T]
    ensures { result.now ≡ take n s.now }
{
    s.get(..n).unwrap_or(s)
}
