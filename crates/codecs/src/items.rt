//! The reading of items one after the other.

ghost use Rattle.std.specs.Prelude.{◌≡◌, false, Result};
ghost use Rattle.codecs.specs.Codec.{Codec, items};
ghost use Rattle.codecs.specs.Gives.{ReadsOr};

use std::alloc::Global;
use xm_base::Cursor;

/// Reads this many items: what one is depends on the state that those before it left. A fault is passed for being out of memory.
pub fn read_items<
    S: Copy,
    T: Drop,
    E: Copy,
    F: Fn(&mut Cursor<'_>, S) -> Result<T, E>,
    N: Fn(S, &T) -> S,
>(
    alloc: Global,
    count: u32,
    cursor: &mut Cursor<'_>,
    first: S,
    memory: E,
    element: F,
    next: N,
) -> Result<Vec<T>, E>
    // Both functions may be called.
    requires callable { F.IsAlwaysCallable element }
    requires steps { N.IsAlwaysCallable next }
    // Where one function reads an item by its format and the other gives the state after it, these items are read.
    ensures value { (item : S → Codec E T) (step : S → T → S)
        → ((old : _) (state : _) (found : Result T E) (new : _) → F.post element old state found new
        → ReadsOr memory (λ one. one) found new.now ((item state).read old.now))
        → ((state : _) (one : _) (made : _) → N.post next state one made → made ≡ step state one.now)
        → ReadsOr memory (λ found. found.items) result cursor.new ((items (λ state. false) item step count first).read cursor.old) }
{
    let mut found = Vec::new(alloc);
    let mut state = first;
    for _ in 0..count {
        let one = match element(cursor, state) {
            Ok(one) => one,
            Err(fault) => return Err(fault),
        };
        state = next(state, &one);
        match found.push(one) {
            Ok(()) => {}
            Err(_) => return Err(memory),
        }
    }
    Ok(found)
}
