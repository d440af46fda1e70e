// The field of a compressed jump, looked up by half its distance.
// Document 02, Ticket 2: "take the RVC_JUMP field from a printed table of 2,048 field patterns, one for each even distance".
#![tactic(auto)]

ghost use Rattle.std.specs.Prelude.{◌≡◌, ◌<◌};
ghost use Rattle.instructions_table.specs.Jumps.{field_at};

mod cj_fields;

// A function of its own, because a constant lies in the frame of the function that names it: the whole table is stored there at
// each call.
pub fn cj_field(half: usize) -> u16
    requires { half < 2048 }
    ensures { result ≡ field_at half }
{
    cj_fields::CJ_FIELDS[half]
}
