//! Writes to the bytes of one partition among those of all.

ghost use Rattle.std.specs.Prelude.{◌≡◌, ◌<◌, true, OnErr, OnOk, length};
ghost use Rattle.guest_bus.specs.Access.{Stores, after_store, store_fault};
ghost use Rattle.guest_bus.specs.Memory.{all_from, is_readable, is_writable, with_bytes};
ghost use Rattle.guest_memory.specs.Flat.{AllBytes, listed};
ghost use Rattle.guest_memory.specs.lemmas.FlatTerms.{IsPartOf, SameAround, memory_of_part};
ghost use Rattle.guest_memory.specs.Loading.{LiesInAreas, areas_with_image};
ghost use Rattle.guest_memory.specs.Memories.{answer_by, first_refused};
ghost use Rattle.guest_memory.specs.Near.{IsNearOf};

use crate::near::{Look, Near};
use crate::outside::Outside;
use crate::range::{load_image, write};
use crate::space;
use crate::table::Table;
use guest_bus::{BusFault, Size};
use xef_images::Xef;

/// Stores a value where nothing refuses it. An area that is none of those that are looked at first is the third of them then.
pub(crate) fn store(
    near: &mut Near,
    table: &Table,
    whole: &mut [u8],
    address: u32,
    size: Size,
    value: u64,
) -> Result<(), BusFault>
    requires near { IsNearOf near.old table.now }
    requires part { IsPartOf table.now whole.old }
    requires few { length whole.old < 4294967296 }
    ensures fault { Stores result (store_fault (listed table.now.entries) address size) }
    ensures memory { memory_of_part table.now whole.new ≡ after_store (listed table.now.entries) (memory_of_part table.now whole.old) address size value }
    ensures others { SameAround table.now whole.old whole.new }
    ensures bytes { AllBytes whole.new }
    ensures near { IsNearOf near.new table.now }
{
    if near.stored(Look::Third, whole, address, size, value) {
        return Ok(());
    }
    *near = table.near_at(address);
    let place = table.place() as usize;
    let end = place + table.size() as usize;
    space::store(
        table.entries(),
        &mut whole[place..end],
        address,
        size,
        value,
    )
}

/// Writes bytes from an address on, where all may be written.
pub(crate) fn copy_out(
    table: &Table,
    whole: &mut [u8],
    address: u32,
    from: &[u8],
) -> Result<(), Outside>
    requires { IsPartOf table.now whole.old }
    ensures answer { result ≡ answer_by (first_refused (is_writable (listed table.now.entries)) address (length from.now)) }
    ensures written { OnOk result (memory_of_part table.now whole.new ≡ with_bytes (memory_of_part table.now whole.old) address from.now) }
    ensures unchanged { OnErr result (whole.new ≡ whole.old) }
    ensures others { SameAround table.now whole.old whole.new }
    ensures bytes { AllBytes whole.new }
{
    let place = table.place() as usize;
    let end = place + table.size() as usize;
    space::copy_out(table.entries(), &mut whole[place..end], address, from)
}

/// Writes bytes from an address on, in areas that may only be read, too.
pub(crate) fn put(table: &Table, whole: &mut [u8], address: u32, from: &[u8])
    requires part { IsPartOf table.now whole.old }
    requires readable { all_from (is_readable (listed table.now.entries)) address (length from.now) ≡ true }
    ensures memory { memory_of_part table.now whole.new ≡ with_bytes (memory_of_part table.now whole.old) address from.now }
    ensures others { SameAround table.now whole.old whole.new }
    ensures bytes { AllBytes whole.new }
{
    let place = table.place() as usize;
    let end = place + table.size() as usize;
    write(
        table.entries(),
        &mut whole[place..end],
        u64::from(address),
        from,
    );
}

/// Loads an image, with zeros in all other places.
pub(crate) fn reload(table: &Table, whole: &mut [u8], image: &Xef)
    requires part { IsPartOf table.now whole.old }
    requires inside { LiesInAreas (listed table.now.entries) image.now }
    ensures memory { memory_of_part table.now whole.new ≡ areas_with_image (listed table.now.entries) image.now }
    ensures others { SameAround table.now whole.old whole.new }
    ensures bytes { AllBytes whole.new }
{
    let place = table.place() as usize;
    let end = place + table.size() as usize;
    load_image(table.entries(), &mut whole[place..end], image);
}
