// Parts of slices that are there for any numbers.
#![tactic(auto)]

ghost use Rattle.std.specs.Prelude.{◌≡◌, ◌-◌, ◌&&◌, [], cond, drop, leb, length, take};

// The first n items of a slice, all of them where it has fewer.
pub fn first<T>(items: &[T], n: usize) -> &[T]
    ensures { result.now ≡ take n items.now }
{
    &items[..n.min(items.len())]
}

// The bytes from one place up to another, none where there are no such places: columns of a line that is told of after it was read.
pub fn part(bytes: &[u8], from: usize, to: usize) -> &[u8]
    ensures { result.now ≡ cond (leb from to && leb to (length bytes.now)) (take (to - from) (drop from bytes.now)) [] }
{
    bytes.get(from..to).unwrap_or(&[])
}
