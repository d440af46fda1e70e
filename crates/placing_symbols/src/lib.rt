// The values of symbols.
#![tactic(auto)]

ghost use Rattle.std.specs.Prelude.{◌≡◌, List, ℕ};
ghost use Rattle.elf_read.specs.Headers.{class_of};
ghost use Rattle.elf_check.specs.Requires.{SoundObject};
ghost use Rattle.placing_symbols.specs.Reasons.{reason_number, because};
ghost use Rattle.placing_symbols.specs.Values.{is_wrong_type, of_entry};
ghost use Rattle.placing_symbols.specs.Arrays.{state_of, number_of, listed, ValueArrays, Blank, Valued};
ghost use Rattle.placing_symbols.specs.Requires.{SymbolsOf};

use elf_read::{
    SHN_ABS, SHN_COMMON, SHN_LORESERVE, SHN_UNDEF, STB_WEAK, STT_GNU_IFUNC, STT_TLS, Section,
    Symbol, class_of,
};
use numbers_definitions::Address;
use order_format::Order;
use order_lookup::{Addresses, take_external};

// Why a symbol has no value, in the order in which the reasons are looked at. The last is one of relocations that take a pair.
#[derive(Clone, Copy)]
pub enum Reason {
    PastTable,
    NotAllocated,
    Common,
    Reserved,
    Undefined,
    WrongType,
    OutsideTarget,
}

// The value of a symbol, or why it has none.
pub type SymbolValue = Result<Address, Reason>;

// The number of a reason, which the C interface has. Every reason is named, so that a new one has to be given a number.
pub fn reason_number(reason: Reason) -> u8
    ensures { result ≡ reason_number reason }
{
    match reason {
        Reason::PastTable => 1,
        Reason::NotAllocated => 2,
        Reason::Common => 3,
        Reason::Reserved => 4,
        Reason::Undefined => 5,
        Reason::WrongType => 6,
        Reason::OutsideTarget => 7,
    }
}

// A symbol's value, unless the symbol is of a type that has none.
fn value_by_type(symbol: Symbol, value: Address) -> SymbolValue
    ensures { result ≡ because Reason.WrongType (is_wrong_type symbol) (Ok value) }
{
    if (symbol.kind == STT_TLS) | (symbol.kind == STT_GNU_IFUNC) {
        return Err(Reason::WrongType);
    }
    Ok(value)
}

// The value of an undefined symbol: the order's, else 0 if it is weak.
fn undefined_value(symbol: Symbol, given: Option<Address>) -> SymbolValue
    ensures { (object : List ℕ) (start : ℕ) → symbol.section ≡ 0 → result ≡ of_entry object given start symbol }
{
    match given {
        Some(v) => value_by_type(symbol, v),
        None => {
            if symbol.binding != STB_WEAK {
                return Err(Reason::Undefined);
            }
            value_by_type(symbol, Address(0))
        }
    }
}

// The value of a symbol of the table that is not symbol 0, by the section that it is defined in. `given` is what the order gives to the
// symbol, and `start` is the address of that section.
fn entry_value(object: &[u8], given: Option<Address>, start: u64, symbol: Symbol) -> SymbolValue
    requires { SoundObject object.now }
    ensures { result ≡ of_entry object.now given start symbol }
{
    let section = symbol.section;
    if section == SHN_UNDEF {
        return undefined_value(symbol, given);
    }
    if section < SHN_LORESERVE {
        if !elf_read::is_allocated_section(object, u32::from(section)) {
            return Err(Reason::NotAllocated);
        }
        let sum = numbers_arithmetic::sum(class_of(object), start, symbol.value.0);
        return value_by_type(symbol, Address(sum));
    }
    if section == SHN_ABS {
        // An absolute symbol is in no section: its value is the address itself.
        return value_by_type(symbol, Address(symbol.value.0));
    }
    if section == SHN_COMMON {
        return Err(Reason::Common);
    }
    Err(Reason::Reserved)
}

// The symbol table: its header, and how many symbols it has. If it has none, nothing reads the header.
#[derive(Clone, Copy)]
pub struct Symbols {
    pub table: Section,
    pub count: usize,
}

// The symbols of an object.
pub fn symbols_of(object: &[u8]) -> Symbols
    requires { SoundObject object.now }
    ensures { SymbolsOf object.now result }
{
    let count = elf_read::symbol_count(object);
    // Section 0 stands for the table that is not there: an Option would make each lookup ask whether it is.
    if count == 0 {
        return Symbols {
            table: elf_read::read_section(object, 0),
            count,
        };
    }
    Symbols {
        table: elf_read::read_section(object, elf_read::symbol_table(object)),
        count,
    }
}

// The state that is stored for S.
fn state_of(value: SymbolValue) -> Result<(), Reason>
    ensures { result ≡ state_of value }
{
    value.map(|_| ())
}

// The value that is stored for S: 0 if the symbol does not resolve.
fn number_of(value: SymbolValue) -> u64
    ensures { result ≡ number_of value }
{
    value.map_or(0, |s| s.0)
}

// Works S out for every symbol, in one way through the table and through the order's external values. `addresses` is passed by
// value and handed back. The states past the table stay as they come, which says that they are past it.
// Values and states are two arrays: one array of Results would need 48 KB more stack, which the C header does not allow.
pub fn symbol_values(
    object: &[u8],
    order: &Order<'_>,
    symbols: Symbols,
    addresses: Addresses,
    values: &mut [u64],
    states: &mut [Result<(), Reason>],
) -> Addresses
    requires { SoundObject object.now × (order.now.class ≡ class_of object.now) × SymbolsOf object.now symbols × Blank object.now values.old states.old }
    ensures { (result ≡ addresses) × Valued object.now order.now.bytes.now addresses values.new states.new }
{
    let table = symbols.table;
    let count = symbols.count;
    // A local copy, so that nothing of it need be worked out again after each store.
    let order = *order;
    // Symbol 0 resolves, to 0.
    states[0] = Ok(());
    let first = take_external(&order, 0, 0);
    let mut next = first.next;
    for k in 1..count {
        let symbol = elf_read::read_symbol(object, table, k);
        let section = usize::from(symbol.section);
        let start = addresses.get(section).copied().unwrap_or(0);
        let taken = take_external(&order, next, k as u32);
        let given = taken.value;
        let value = entry_value(object, given, start, symbol);
        next = taken.next;
        values[k] = number_of(value);
        states[k] = state_of(value);
    }
    addresses
}

// S of symbol k, out of the arrays.
pub fn value_at(values: &[u64], states: &[Result<(), Reason>], k: u32) -> SymbolValue
    requires { ValueArrays values.now states.now }
    ensures { result ≡ listed values.now states.now k }
{
    let at = k as usize;
    if states.len() <= at {
        return Err(Reason::PastTable);
    }
    states[at]?;
    Ok(Address(values[at]))
}
