// The memory of a reader's gathering.
ghost use Rattle.std.specs.Prelude.{◌≡◌, ◌≤◌, length};

use super::slot::Slot;

// The watched numbers, each with its slot. The slots past those in use mean nothing.
// No ==: slots past those in use, and bytes left over from parts dropped, mean nothing.
// No Model of watched numbers and what is gathered: a reader promises that a refused offer leaves every field as it was, and
// such a view would forget the bytes left over.
// In fixed memory: the library crates have no allocator, and no crate of the kit beneath them but std.
#[derive(Debug, Drop)]
pub struct Table {
    pub(crate) slots: [Slot; 8],
    pub(crate) used: usize,
    ghost long: { length slots ≡ 8 },
    ghost few: { used ≤ 8 },
}
