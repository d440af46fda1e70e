// What a relocation makes of the bytes that it touches, worked out from numbers.
#![tactic(auto)]

ghost use Rattle.std.specs.Prelude.{◌≡◌, true, false, ℕ, ◌+◌, ◌%◌, ◌^◌, ◌≤◌, ◌<◌, pos, ◌+ℤ◌, eqb};
ghost use Rattle.numbers_definitions.specs.declared.Class.{Class};
ghost use Rattle.numbers_definitions.specs.Classes.{bits};
ghost use Rattle.numbers_definitions.specs.Whole.{residue, signed, minus};
ghost use Rattle.instructions_riscv.specs.Forms.{has_form};
ghost use Rattle.relocations_values.specs.Values.{S};
ghost use Rattle.relocations_decisions.specs.Decisions.{is_paired};
ghost use Rattle.relocations_rules.specs.Rules.{stands_well, part_reaches, reaches_well};
ghost use Rattle.relocations_bytes.specs.Patches.{high_part, low_part, operand_of, patched};
ghost use Rattle.relocations_patch.specs.Regular.{is_upper, fills, Regular, operand_by};

use instructions_encode::{put_b, put_cb, put_cj, put_data, put_field, put_i, put_j, put_s, put_u};
use instructions_fields::{Field, Width};
use instructions_riscv::data::{add, set, sub};
use instructions_riscv::forms::{Form, has_form};
use instructions_riscv::halves::{hi20, lo12};
use instructions_riscv::ranges::{in_halves_reach, in_reach, keeps_alignment, range_of};
use numbers_arithmetic::{add64, difference};
use numbers_definitions::{Address, Class};
use placing_symbols::SymbolValue;
use relocations_decisions::is_paired;
use relocations_types::{Calculation, Operand, Part, Rule};

// Both halves of a number, at the bits where AUIPC or LUI and the instruction after it hold them.
fn both_halves(class: Class, x: u64) -> u64
    ensures { result ≡ high_part (bits class) x + low_part (bits class) x }
{
    high_part(class, x) + low_part(x)
}

fn high_part(class: Class, x: u64) -> u64
    ensures { (result ≡ high_part (bits class) x) × (result + 4096 ≤ 2 ^ 64) }
{
    4096 * hi20(class, x)
}

// It is the same in both classes.
fn low_part(x: u64) -> u64
    ensures { ((k : Class) → result ≡ low_part (bits k) x) × (result < 2 ^ 12) }
{
    lo12(x)
}

// Every operand is named here, and every form below, so that a new one has to be placed.
// What T is counted from: P where the operand is T - P, and 0 where it is T itself. A paired operand has no T of its own.
fn origin(operand: Operand, p: Address) -> u64
    ensures { (w t d : ℕ) → t < 2 ^ w → is_paired operand ≡ false → minus w t result ≡ operand_of w operand t p.0 d }
{
    match operand {
        Operand::Absolute | Operand::Paired => 0,
        Operand::PcRelative => p.0,
    }
}

// The operand. x is S + A in two's complement, p is P, and d is the paired high half's T - P. T is x, reduced; T - P is reduced once.
fn operand_of(class: Class, operand: Operand, x: u64, p: Address, d: u64) -> u64
    ensures { result ≡ operand_of (bits class) operand (residue (bits class) (signed 64 x)) p.0 d }
{
    let v = difference(class, x, origin(operand, p));
    if is_paired(operand) { d } else { v }
}

// The operand of a calculation, where x is S + A. ADD, SUB and SET have none.
fn operand_value(class: Class, calculation: Calculation, x: u64, p: Address, d: u64) -> u64
    ensures { result ≡ operand_by (bits class) calculation (residue (bits class) (signed 64 x)) p.0 d }
{
    match calculation {
        Calculation::Of(_, operand) => operand_of(class, operand, x, p, d),
        Calculation::Add | Calculation::Sub | Calculation::Set => 0,
    }
}

// A field of data after a relocation. w is its bytes before it, x is S + A in two's complement, and v is the operand.
fn data_word(calculation: Calculation, width: Width, w: u64, x: u64, v: u64) -> u64
    requires { fills calculation ≡ true }
    ensures { (n p d : ℕ) → v ≡ operand_by n calculation (residue n (signed 64 x)) p d → result ≡ patched n calculation (Field.Data width) w (signed 64 x) p d }
{
    match calculation {
        Calculation::Of(_, _) => put_data(width, w, v),
        Calculation::Add => add(width, w, x),
        Calculation::Sub => sub(width, w, x),
        Calculation::Set => set(width, w, x),
    }
}

// The opcode of LUI or AUIPC.
fn upper_opcode(form: Form) -> u64
    requires { is_upper form ≡ true }
    ensures { (k : Class) (word next : ℕ) → eqb (word % 128) result ≡ has_form k form word next }
{
    match form {
        Form::Lui => 0x37,
        Form::Auipc => 0x17,
        Form::Any
        | Form::Jal
        | Form::Branch
        | Form::LowI
        | Form::LowS
        | Form::CallPair
        | Form::CBranch
        | Form::CJump => unreachable!(),
    }
}

// Check 13 of a jump or a branch. v is T - P modulo 2^w.
fn jump_reaches(class: Class, rvc: bool, field: Field, v: u64) -> bool
    ensures { (t p : ℕ) → v ≡ minus (bits class) t p → result ≡ part_reaches class rvc Part.Distance Operand.PcRelative field t p }
{
    in_reach(class, range_of(field), v) & keeps_alignment(rvc, v)
}

// Check 13 of a CALL. v is T - P modulo 2^w.
fn call_reaches(class: Class, rvc: bool, v: u64) -> bool
    ensures { (t p : ℕ) → v ≡ minus (bits class) t p → result ≡ part_reaches class rvc Part.BothHalves Operand.PcRelative Field.Call t p }
{
    (v % 2 == 0) & in_halves_reach(class, v) & keeps_alignment(rvc, v)
}

// What a relocation makes of its bytes: whether they have its form and the distance is in reach, as checks 11 and 13 ask, and the
// bytes that it leaves.
// It has two flags, and is no Result: check 12, which only the caller can answer, comes between the two.
#[derive(Clone, Copy)]
pub struct Applied {
    pub stands: bool,
    pub reaches: bool,
    pub word: u64,
}

// A rule at a place. `found` is the touched bytes as the object has them, and w as the relocation finds them; x is S + A in two's
// complement, p is P, and d is the paired high half's T - P. `rvc` says that bit 0 of e_flags is set. One match on the field decides
// everything: what goes into the field and which form is asked for are then known. The arms of the jumps are apart, so that each
// asks for one form and one range that are constants.
pub fn apply_rule(
    class: Class,
    rvc: bool,
    rule: Rule,
    found: u64,
    w: u64,
    x: u64,
    p: Address,
    d: u64,
) -> Applied
    requires { Regular rule.calculation rule.field rule.form }
    ensures { (result.stands ≡ stands_well class rule.form p.0 found) × (result.reaches ≡ reaches_well class rvc rule.calculation rule.field (residue (bits class) (signed 64 x)) p.0) × (result.word ≡ patched (bits class) rule.calculation rule.field w (signed 64 x) p.0 d) }
{
    let even = p.0 % 2 == 0;
    let next = found / 0x1_0000_0000;
    let v = operand_value(class, rule.calculation, x, p, d);
    match rule.field {
        Field::U => Applied {
            stands: even & (found % 128 == upper_opcode(rule.form)),
            reaches: in_halves_reach(class, v),
            word: put_u(w, high_part(class, v)),
        },
        Field::I => Applied {
            stands: even & has_form(class, Form::LowI, found, next),
            reaches: true,
            word: put_i(w, low_part(v)),
        },
        Field::S => Applied {
            stands: even & has_form(class, Form::LowS, found, next),
            reaches: true,
            word: put_s(w, low_part(v)),
        },
        Field::B => Applied {
            stands: even & has_form(class, Form::Branch, found, next),
            reaches: jump_reaches(class, rvc, Field::B, v),
            word: put_b(w, v),
        },
        Field::J => Applied {
            stands: even & has_form(class, Form::Jal, found, next),
            reaches: jump_reaches(class, rvc, Field::J, v),
            word: put_j(w, v),
        },
        Field::Cb => Applied {
            stands: even & has_form(class, Form::CBranch, found, next),
            reaches: jump_reaches(class, rvc, Field::Cb, v),
            word: put_cb(w, v),
        },
        Field::Cj => Applied {
            stands: even & has_form(class, Form::CJump, found, next),
            reaches: jump_reaches(class, rvc, Field::Cj, v),
            word: put_cj(w, v),
        },
        Field::Call => Applied {
            stands: even & has_form(class, Form::CallPair, found, next),
            reaches: call_reaches(class, rvc, v),
            word: put_field(Field::Call, w, both_halves(class, v)),
        },
        Field::Data(width) => Applied {
            stands: true,
            reaches: true,
            word: data_word(rule.calculation, width, w, x, v),
        },
    }
}

// S + A in two's complement.
pub fn symbol_sum(value: SymbolValue, addend: u64) -> u64
    ensures { result ≡ residue 64 (pos (S value) +ℤ signed 64 addend) }
{
    match value {
        Ok(s) => add64(s.0, addend),
        Err(_) => add64(0, addend),
    }
}
