// An order: the window's base, where each section goes, and the values of undefined symbols.
#![tactic(auto)]

ghost use Rattle.std.specs.Prelude.{◌≡◌, ℕ, Some, None, MatchOption, ◌+◌, ◌*◌, ◌^◌, ◌≤◌, ◌<◌, length};
ghost use Rattle.numbers_definitions.specs.Classes.{bits, address_bytes};
ghost use Rattle.order_format.specs.Orders.{entry_size, empty_size, placements_start, externals_at, max_placements, max_externals, reading, entry_at, ascending, placement, external};
ghost use Rattle.order_format.specs.Lists.{Counted};
ghost use Rattle.order_format.specs.Windows.{length_allowed, window_allowed};

use numbers_definitions::{Address, Class};

// How many placements and external values an order may have, and how many bytes an image.
pub const MAX_PLACEMENTS: usize = 128;

pub const MAX_EXTERNALS: usize = 8192;

pub const MAX_IMAGE: usize = 1_048_576;

// A section and its address, or a symbol and its value, which is a run-time address too.
#[derive(Clone, Copy)]
pub struct Entry {
    pub index: u32,
    pub value: Address,
}

// The window's base, and how many placements and external values there are.
#[derive(Clone, Copy)]
pub struct OrderHeader {
    pub base: Address,
    pub placements: usize,
    pub externals: usize,
}

// How many bytes an address takes.
// Every class is named here, where it becomes a number, so that a new one has to be placed.
fn address_size(class: Class) -> usize
    ensures { result ≡ address_bytes class }
{
    match class {
        Class::Elf32 => 4,
        Class::Elf64 => 8,
    }
}

// The size in bytes of an order without entries, which is three counts and the base.
fn empty_size(class: Class) -> usize
    ensures { result ≡ empty_size class }
{
    12 + address_size(class)
}

// Placements start after the base and their count.
pub fn placements_start(class: Class) -> usize
    ensures { result ≡ placements_start class }
{
    8 + address_size(class)
}

// Where entry i of a list that starts at `at` stands. An entry is an index of four bytes and an address.
fn entry_place(class: Class, at: usize, i: usize) -> usize
    requires { at + entry_size class * i < 2 ^ 64 }
    ensures { result ≡ at + entry_size class * i }
{
    at + (4 + address_size(class)) * i
}

// Where the external values start: after the placements and the count of the external values.
pub fn externals_start(class: Class, placements: usize) -> usize
    requires { placements ≤ max_placements }
    ensures { result ≡ externals_at class placements }
{
    entry_place(class, empty_size(class), placements)
}

// Entry i of a list that starts at `at`.
pub fn read_entry(class: Class, order: &[u8], at: usize, i: usize) -> Entry
    requires { at + entry_size class * i + entry_size class ≤ length order.now }
    ensures { result ≡ entry_at class order.now at i }
{
    let place = entry_place(class, at, i);
    Entry {
        index: numbers_bytes::read::<u32>(order, place),
        value: Address(numbers_bytes::read_address(class, order, place + 4)),
    }
}

// Whether the n entries from `at` on ascend strictly by their indices.
fn ascends(class: Class, order: &[u8], at: usize, n: usize) -> bool
    requires { at + entry_size class * n ≤ length order.now }
    ensures { result ≡ ascending (λ i. (entry_at class order.now at i).index) n }
{
    for i in 1..n {
        let low = read_entry(class, order, at, i - 1);
        let high = read_entry(class, order, at, i);
        if high.index <= low.index {
            return false;
        }
    }
    true
}

// How many entries the list that starts at `at` has, or nothing where they are more than `most` or do not lie inside the order. The
// count of a list is the four bytes before it.
fn read_count(class: Class, order: &[u8], at: usize, most: usize) -> Option<usize>
    requires { (4 ≤ at) × (at ≤ length order.now) × (most ≤ max_externals) }
    ensures { MatchOption result ((n : ℕ) → Counted class order.now at most n → ⊥) (λ n. Counted class order.now at most n) }
{
    let n = numbers_bytes::read::<u32>(order, at - 4) as usize;
    if most < n {
        return None;
    }
    if order.len() < entry_place(class, at, n) {
        return None;
    }
    Some(n)
}

// Check 2: the base and the counts of an order, or nothing where the bytes are not an order. Both counts and the length are looked
// at before a list is gone over, so that bytes of a wrong length are refused at once.
pub fn read_order(class: Class, order: &[u8]) -> Option<OrderHeader>
    ensures { result ≡ reading class order.now }
{
    if order.len() < empty_size(class) {
        return None;
    }
    if numbers_bytes::read::<u32>(order, 0) != 1 {
        return None;
    }
    let first = placements_start(class);
    let placements = read_count(class, order, first, MAX_PLACEMENTS)?;
    let start = externals_start(class, placements);
    if order.len() < start {
        return None;
    }
    let externals = read_count(class, order, start, MAX_EXTERNALS)?;
    if order.len() != entry_place(class, start, externals) {
        return None;
    }
    if !ascends(class, order, first, placements) {
        return None;
    }
    if !ascends(class, order, start, externals) {
        return None;
    }
    Some(OrderHeader {
        base: Address(numbers_bytes::read_address(class, order, 4)),
        placements,
        externals,
    })
}

// An order that was read: its bytes, the class by which they were read, and their base and counts.
// That the class is the object's stays a clause of those who have both: the definitions read it from the object.
#[derive(Clone, Copy)]
pub struct Order<'a> {
    pub bytes: &'a [u8],
    pub class: Class,
    pub counts: OrderHeader,
    pub ghost read_is: { reading class bytes.now ≡ Some counts },
}

impl<'a> Order<'a> {
    // Check 2: the order that the bytes are, or nothing where they are no order.
    pub fn read(class: Class, bytes: &'a [u8]) -> Option<Order<'a>>
        ensures { MatchOption result (reading class bytes.now ≡ None) (λ o. (o.class ≡ class) × (o.bytes.now ≡ bytes.now)) }
    {
        let counts = read_order(class, bytes)?;
        Some(Order {
            bytes,
            class,
            counts,
        })
    }

    // Placement i.
    pub fn placement(&self, i: usize) -> Entry
        requires { i < self.now.counts.placements }
        ensures { result ≡ placement self.now.class self.now.bytes.now i }
    {
        read_entry(self.class, self.bytes, placements_start(self.class), i)
    }

    // External value i.
    pub fn external(&self, i: usize) -> Entry
        requires { i < self.now.counts.externals }
        ensures { result ≡ external self.now.class self.now.bytes.now i }
    {
        let start = externals_start(self.class, self.counts.placements);
        read_entry(self.class, self.bytes, start, i)
    }
}

// Check 3 of a rollback: the image's length.
pub fn length_allowed(len: usize) -> bool
    ensures { result ≡ length_allowed len }
{
    len <= MAX_IMAGE
}

// Check 3 of an install: the image's length, and that the window ends at or below the end of memory.
pub fn window_allowed(class: Class, base: Address, len: usize) -> bool
    ensures { result ≡ window_allowed (bits class) base.0 len }
{
    (len <= MAX_IMAGE) & numbers_arithmetic::ends_in_memory(class, base.0, len as u64)
}
