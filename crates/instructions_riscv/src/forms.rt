// Instruction forms: which words a relocation asks for.
ghost use Rattle.std.specs.Prelude.{◌≡◌};
ghost use Rattle.instructions_riscv.specs.Forms.{has_form, is_jalr};

use numbers_definitions::Class;

// What a relocation asks of the words at its place. Any is for data, which may be anything. LowI and LowS are for an
// instruction that takes a low half, in format I or S. CallPair is AUIPC followed by JALR.
#[derive(Clone, Copy)]
pub enum Form {
    Any,
    Lui,
    Auipc,
    Jal,
    Branch,
    LowI,
    LowS,
    CallPair,
    CBranch,
    CJump,
}

// Whether a word has the form in a file of the class. `next` is the word after it, which only CallPair looks at. ADDIW takes
// a low half too, and RV64 has no C.JAL.
#[tactic(auto, unfolding(crate::specs::Forms::has_form))]
pub fn has_form(class: Class, form: Form, word: u64, next: u64) -> bool
    ensures { result ≡ has_form class form word next }
{
    let opcode = word % 128;
    let rd = word / 128 % 32;
    let funct3 = word / 4096 % 8;
    let quadrant = word % 4;
    let cfunct3 = word / 8192 % 8;
    match form {
        Form::Any => true,
        Form::Lui => opcode == 0x37,
        Form::Auipc => opcode == 0x17,
        Form::Jal => opcode == 0x6f,
        Form::Branch => opcode == 0x63,
        Form::LowI => {
            (opcode == 0x03)
                | (opcode == 0x07)
                | (((opcode == 0x13)
                    | (opcode == 0x67)
                    | ((class == Class::Elf64) & (opcode == 0x1b)))
                    & (funct3 == 0))
        }
        Form::LowS => (opcode == 0x23) | (opcode == 0x27),
        Form::CallPair => (opcode == 0x17) & (rd != 0) & jalr_of(next, rd),
        Form::CBranch => (quadrant == 1) & ((cfunct3 == 6) | (cfunct3 == 7)),
        Form::CJump => (quadrant == 1)
            & ((cfunct3 == 5) | ((class == Class::Elf32) & (cfunct3 == 1))),
    }
}

// Whether a word is JALR through the given register.
fn jalr_of(word: u64, register: u64) -> bool
    ensures { result ≡ is_jalr word register }
{
    (word % 128 == 0x67) & (word / 4096 % 8 == 0) & (word / 32768 % 32 == register)
}
