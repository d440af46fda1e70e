// The addresses that an order gives to sections, and the values that it gives to symbols.
#![tactic(auto)]

ghost use Rattle.std.specs.Prelude.{◌≡◌, ◌+◌};
ghost use Rattle.order_lookup.specs.Values.{value_in, external_value};
ghost use Rattle.order_lookup.specs.Requires.{Searchable, Reached};
ghost use Rattle.order_lookup.specs.Addresses.{placed_at, no_addresses, addresses};

use elf_read::MAX_SECTIONS;
use numbers_definitions::Address;
use order_format::Order;
use std::cmp::Ordering;

// The value that the n entries from `at` on give to number k, if they give one. They ascend strictly, so this is a binary search.
// It is a loop of its own: `std` searches slices of elements, and an entry is as many bytes as the class says.
fn find(order: &Order<'_>, at: usize, n: usize, k: u32) -> Option<Address>
    requires { Searchable order.now.class order.now.bytes.now at n }
    ensures { result ≡ value_in order.now.class order.now.bytes.now at n k }
{
    let mut low: usize = 0;
    let mut high: usize = n;
    while low < high {
        let middle = low + (high - low) / 2;
        let e = order_format::read_entry(order.class, order.bytes, at, middle);
        match e.index.cmp(&k) {
            Ordering::Less => low = middle + 1,
            Ordering::Equal => return Some(e.value),
            Ordering::Greater => high = middle,
        }
    }
    None
}

// The external value of a symbol.
pub fn external_value(order: &Order<'_>, symbol: u32) -> Option<Address>
    ensures { result ≡ external_value order.now.class order.now.bytes.now symbol }
{
    let start = order_format::externals_start(order.class, order.counts.placements);
    find(order, start, order.counts.externals, symbol)
}

// What the order gives to a symbol, and where the search for the next symbol goes on.
#[derive(Clone, Copy)]
pub struct Taken {
    pub value: Option<Address>,
    pub next: usize,
}

// The external value of symbol k. The search begins at external value `from`: those before it are of lower symbols, and this one
// and those behind it are not. So all symbols in turn cost one way through the external values.
pub fn take_external(order: &Order<'_>, from: usize, k: u32) -> Taken
    requires { Reached order.now.class order.now.bytes.now from k }
    ensures { (result.value ≡ external_value order.now.class order.now.bytes.now k) × Reached order.now.class order.now.bytes.now result.next (k + 1) }
{
    let nothing = Taken {
        value: None,
        next: from,
    };
    if order.counts.externals <= from {
        return nothing;
    }
    let e = order.external(from);
    if e.index != k {
        return nothing;
    }
    Taken {
        value: Some(e.value),
        next: from + 1,
    }
}

// The address that an order gives a section.
pub fn placed_at(order: &Order<'_>, section: u32) -> Option<Address>
    ensures { result ≡ placed_at order.now.class order.now.bytes.now section }
{
    let start = order_format::placements_start(order.class);
    find(order, start, order.counts.placements, section)
}

// The addresses of all sections travel as one array passed by value.
pub type Addresses = [u64; MAX_SECTIONS];

// Stores the address of each section that the order places into an array of zeros. A section that the order does not place
// keeps the entry 0; once check 6 has passed, no result depends on it.
pub fn fill_addresses(mut array: Addresses, order: &Order<'_>) -> Addresses
    requires { array ≡ no_addresses }
    ensures { result ≡ addresses order.now.class order.now.bytes.now }
{
    for i in 0..order.counts.placements {
        let e = order.placement(i);
        let section = e.index as usize;
        if section < MAX_SECTIONS {
            array[section] = e.value.0;
        }
    }
    array
}
