// Columns: lent lists with a place for each element.
ghost use Rattle.std.specs.Prelude.{◌≡◌, ltb};
ghost use Rattle.layout.specs.Layout.{least_of};

// The lowest of four.
pub fn least_of_four(a: usize, b: usize, c: usize, d: usize) -> usize
    ensures { result ≡ least_of (least_of a b) (least_of c d) }
{
    a.min(b).min(c.min(d))
}

// Whether one of five lists, which have so many places, has too few for n elements.
pub fn lacks_room(a: usize, b: usize, c: usize, d: usize, e: usize, n: usize) -> bool
    ensures { result ≡ ltb (least_of (least_of (least_of a b) (least_of c d)) e) n }
{
    least_of_four(a, b, c, d).min(e) < n
}
