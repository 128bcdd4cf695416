// The fields put into a record.
ghost use Rattle.std.specs.Prelude.{◌≡◌, [], ◌∷◌, ◌+◌, ◌≤◌, length};
ghost use Rattle.rules.specs.Bytes.{laid};
ghost use Rattle.rules.specs.Fill.{range_bytes, acs_fields, fill_all, filled_fields};

use crate::image::Image;
use numbers::{put_bytes, put_le_u64};
use rules::{Buses, Range};

// The bytes of a record.
pub const RECORD: usize = 144;

// Own bus, secondary and subordinate.
#[tactic(auto, unfolding(rules::specs::Bytes::laid))]
fn put_buses(into: &mut [u8; RECORD], b: Buses)
    ensures { into.new ≡ laid (laid into.old 4 (b.primary.0 ∷ [])) 6 (b.secondary.0 ∷ b.subordinate.0 ∷ []) }
{
    into[4] = b.primary.0;
    into[6] = b.secondary.0;
    into[7] = b.subordinate.0;
}

// Capability, Control and the vector of an ACS structure; where a byte is not in it, 0.
fn put_acs(into: &mut [u8; RECORD], acs: &[u8])
    ensures { into.new ≡ fill_all (acs_fields acs.now) into.old }
{
    put_bytes(into, 8, 2, acs, 4);
    put_bytes(into, 10, 2, acs, 6);
    put_bytes(into, 16, 32, acs, 8);
}

// First and last address of a range.
fn put_range(into: &mut [u8], at: usize, r: Range)
    requires { at + 16 ≤ length into.old }
    ensures { into.new ≡ laid into.old at (range_bytes r) }
{
    put_le_u64(into, at, r.first);
    put_le_u64(into, at + 8, r.last);
}

// All that is filled, of an image and the ACS structure in it.
pub fn put_fields(into: &mut [u8; RECORD], image: Image<'_>, acs: &[u8])
    ensures { into.new ≡ fill_all (filled_fields image.entry.bytes.now acs.now) into.old }
{
    put_buses(into, image.buses());
    put_acs(into, acs);
    put_range(into, 48, image.memory_window());
    put_range(into, 64, image.prefetchable_window());
}
