// The list of extended capabilities, and the first ACS structure in it.
ghost use Rattle.std.specs.Prelude.{◌≡◌, ◌≢◌, false, true, MatchOption, MatchResult, ◌<◌};
ghost use Rattle.rules.specs.Image as rule;
ghost use Rattle.rules.specs.declared.Refusal.TheVariants.{Capabilities};

use crate::header::Header;
use crate::image::Image;
use rules::{Extent, Refusal};

// Where the list starts.
const LIST_START: u16 = 0x100;

// A multiple of 4 from the list's start on.
fn is_offset(at: u16) -> bool
    ensures { result ≡ rule.is_offset at }
{
    (LIST_START <= at) & (at % 4 == 0)
}

// As many steps as there are offsets in an image, and one more.
const ENOUGH_STEPS: u16 = 961;

impl<'a> Image<'a> {
    // The header at an offset, or none where the list ends, at 0.
    fn header_at(self, at: u16) -> Result<Option<Header<'a>>, Refusal>
        requires { at < rule.image_size }
        ensures { MatchResult result
            (λ found. MatchOption found (at ≡ 0) (λ header. (rule.is_offset at ≡ true)
            × ((header.at ≡ at) × (header.image.bytes.now ≡ self.entry.bytes.now))))
            (λ why. (why ≡ Capabilities) × ((rule.is_offset at ≡ false) × (at ≢ 0))) }
    {
        if is_offset(at) {
            return Ok(Some(Header { image: self, at }));
        }
        if at == 0 {
            return Ok(None);
        }
        Err(Refusal::Capabilities)
    }

    // The first ACS structure. A walk that is not over after so many steps was at some offset twice, and
    // would go round for ever.
    pub fn find(self) -> Result<Option<Extent>, Refusal>
        ensures { result ≡ rule.acs_structure self.entry.bytes.now }
    {
        let mut at = LIST_START;
        for _ in 0..ENOUGH_STEPS {
            let Some(header) = self.header_at(at)? else {
                return Ok(None);
            };
            if header.is_acs() {
                return header.structure();
            }
            at = header.next_offset();
        }
        Err(Refusal::Capabilities)
    }
}
