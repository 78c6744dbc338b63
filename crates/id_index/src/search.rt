//! How entries in rising order of their ids are searched.

ghost use Rattle.std.specs.Prelude.{◌≡◌, ◌<◌, ◌≤◌, length, MatchOption};
ghost use Rattle.std.specs.List.Sorted.{IsPartitionPoint};
ghost use Rattle.id_index.specs.Entries.{number_of, IsNext, IsPastAll, IsRising};

/// The number under an id.
pub(crate) fn find_in(entries: &[(u32, u32)], id: u32) -> Option<u32>
    requires { IsRising entries.now }
    ensures { result ≡ number_of entries.now id }
{
    let &(other, number) = entries.get(first_from(entries, id))?;
    if other == id { Some(number) } else { None }
}

/// The least id that is greater than another.
pub(crate) fn next_in(entries: &[(u32, u32)], id: u32) -> Option<u32>
    requires { IsRising entries.now }
    ensures { MatchOption result (IsPastAll entries.now id) (IsNext entries.now id) }
{
    let &(other, _) = entries.get(first_above(entries, id))?;
    Some(other)
}

/// The place of the first entry whose id isn't less.
pub(crate) fn first_from(entries: &[(u32, u32)], id: u32) -> usize
    requires { IsRising entries.now }
    ensures point { IsPartitionPoint (λ e. e.0 < id) (λ e. id ≤ e.0) entries.now result }
    ensures within { result ≤ length entries.now }
{
    entries.partition_point(|entry| entry.0 < id)
}

// The place of the first entry whose id is greater.
fn first_above(entries: &[(u32, u32)], id: u32) -> usize
    requires { IsRising entries.now }
    ensures point { IsPartitionPoint (λ e. e.0 ≤ id) (λ e. id < e.0) entries.now result }
    ensures within { result ≤ length entries.now }
{
    entries.partition_point(|entry| entry.0 <= id)
}
