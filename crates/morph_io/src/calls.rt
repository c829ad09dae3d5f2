ghost use Rattle.std.specs.Prelude.{◌≡◌, ◌+◌, ◌↔◌, IsTrue, Contains};
ghost use Rattle.morph_io.specs.InMemory.{counted};

/// Whether the number of the next call, after `calls` earlier ones, is among `numbers`. The first call has number 1.
pub(crate) fn is_next_call_among(numbers: &[u64], calls: u64) -> bool
    ensures { IsTrue result ↔ Contains numbers.now (calls + 1) }
{
    match calls.checked_add(1) {
        Some(number) => numbers.contains(&number),
        None => false,
    }
}

/// One more, in a count that stops at the last `u64`.
pub(crate) fn next_count(count: u64) -> u64
    ensures { result ≡ counted count }
{
    count.saturating_add(1)
}
