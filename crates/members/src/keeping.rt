// Lists that are kept whole or not at all.
ghost use Rattle.std.specs.Prelude.{◌≡◌, ◌≤◌, Bool, List, length, take};
ghost use Rattle.members.specs.Each.{KeepsBy, AllKept};

use arrayvec::ArrayVec;

// What is kept of each item, which `keep` tells from it and those that come after it. None where one may not be kept,
// or where there is no room for all.
pub(crate) fn all_kept<T, U: Default + Drop, const MOST: usize, F: Fn(&T, &[T]) -> Option<U>>(
    items: &[T],
    keep: F,
) -> Option<ArrayVec<U, MOST>>
    requires { F.IsAlwaysCallable keep }
    ensures { (test : T → List T → Bool) (form : T → U) → KeepsBy F.Fn keep test form → AllKept test form MOST items.now result }
{
    if items.len() > MOST {
        return None;
    }
    let mut kept = ArrayVec::new();
    for (i, item) in items.iter().enumerate() {
        kept.push(keep(item, &items[i + 1..])?);
    }
    Some(kept)
}

// What was kept, at the front of an array, which can be copied where an `ArrayVec` cannot.
pub(crate) fn laid_out<T: Copy + Default, const MOST: usize>(kept: &[T]) -> [T; MOST]
    requires { length kept.now ≤ MOST }
    ensures { take (length kept.now) result ≡ kept.now }
{
    let mut all = [T::default(); MOST];
    all[..kept.len()].copy_from_slice(kept);
    all
}
