// Rules of the ACS registers.
ghost use Rattle.std.specs.Prelude.{◌≡◌, ◌<◌};
ghost use Rattle.rules.specs.Snapshot as snapshot;
ghost use Rattle.rules.specs.Records.{capability_fine, control_fine};
ghost use Rattle.records.specs.Parts.{bit_allowed, registers_fine};

use layout::acs::Acs;
use layout::kind::Kind;
use layout::record::Record;

fn capability_fine(r: Record<'_>) -> bool
    ensures { result
        ≡ capability_fine (snapshot.kind r.entry.bytes.now r.entry.index)
        (snapshot.capability r.entry.bytes.now r.entry.index) }
{
    let register = r.capability();
    let redirects = register.on(Acs::R);
    let completions = register.on(Acs::C);
    register == Acs(0)
        || (register.on(Acs::V)
            && register.on(Acs::B)
            && (!r.is(Kind::Downstream)
                || (redirects && completions && register.on(Acs::U) && register.on(Acs::T)))
            && redirects == completions
            && !register.on(7))
}

// Bit k is set only where the Capability has it.
fn bit_allowed(allowed: Acs, register: Acs, k: u16) -> bool
    requires { k < 16 }
    ensures { result ≡ bit_allowed allowed.0 register.0 k }
{
    !register.on(k) || allowed.on(k)
}

// Bits 0 to 6 are in use.
const CONTROL_END: u16 = 128;

fn control_fine(allowed: Acs, register: Acs) -> bool
    ensures { result ≡ control_fine allowed.0 register.0 }
{
    register.0 < CONTROL_END && (0..7).all(|k| bit_allowed(allowed, register, k))
}

#[tactic(auto, unfolding(crate::specs::Parts::registers_fine))]
pub fn registers_fine(r: Record<'_>) -> bool
    ensures { result ≡ registers_fine r.entry.bytes.now r.entry.index }
{
    capability_fine(r) && control_fine(r.capability(), r.control())
}
