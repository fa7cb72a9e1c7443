//! The first of what the items of a list add: the loop that every rule over a list is.

ghost use Rattle.std.specs.Prelude.{◌≡◌, ◌<◌, ◌≤◌, ℕ, List, Option, Some, false, is_some, length, slice_get, take};
ghost use Rattle.xm_conf.specs.Along.{added_by_each, along, head_of};

/// The first of what the items add, each by its number and itself. Where there are more than 255 items, one of the
/// first 256 adds something.
pub fn first_of_each<T, Y: Copy, F: Fn(u8, &T) -> Option<Y>>(items: &[T], adds: F) -> Option<Y>
    // Called with a function that may be called of each item and that finds something in the last of 256 items, if not
    // before.
    requires callable { (n : ℕ) (item : _) → n < length items.now → n < 256 → slice_get items.now n ≡ Some item.now → F.pre adds n item }
    requires few { (n : ℕ) (item : _) (found : Option Y) → n < length items.now → n < 256 → F.post adds n item found → is_some found ≡ false → n < 255 }
    // The first of what the items of a list add, each by its number or by those before it, for whatever function says
    // what the closure adds.
    ensures { (f : ℕ → T → List Y) → ((n : ℕ) (item : _) (found : Option Y) → F.post adds n item found → found ≡ head_of (f n item.now)) → result ≡ head_of (added_by_each f items.now) }
{
    for (n, item) in items.iter().enumerate() {
        let found = adds(n as u8, item);
        if found.is_some() {
            return found;
        }
    }
    None
}

/// The first of what the items add, each by those before it and itself.
pub fn first_along<T, Y: Copy, F: Fn(&[T], &T) -> Option<Y>>(items: &[T], adds: F) -> Option<Y>
    // Called with at most 255 items and with a function that may be called of each item and those before it.
    requires few { length items.now ≤ 255 }
    requires callable { (n : ℕ) (before : _) (item : _) → n < length items.now → before.now ≡ take n items.now → slice_get items.now n ≡ Some item.now → F.pre adds before item }
    // The first of what the items of a list add, each by its number or by those before it, for whatever function says
    // what the closure adds.
    ensures { (f : List T → T → List Y) → ((before : _) (item : _) (found : Option Y) → F.post adds before item found → found ≡ head_of (f before.now item.now)) → result ≡ head_of (along f items.now) }
{
    first_of_each(items, |n, item| adds(&items[..usize::from(n)], item))
}
