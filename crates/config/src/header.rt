// The header of an extended capability, and the ACS structure that one of ACS begins.
ghost use Rattle.std.specs.Prelude.{◌≡◌, ◌+◌, ◌≤◌, ◌<◌};
ghost use Rattle.rules.specs.Image as rule;

use crate::image::Image;
use layout::acs::Acs;
use numbers::le;
use rules::{Extent, Refusal};

// The header at this offset of an image.
#[derive(Clone, Copy)]
pub struct Header<'a> {
    pub image: Image<'a>,
    pub at: u16,
    pub ghost there: { at + 4 ≤ rule.image_size },
}

// Header and registers take 8 bytes; where the Capability has E, 4 more for each 32 bits of the vector.
fn structure_length(capability: Acs) -> u16
    ensures value { result ≡ rule.structure_length capability.0 }
    ensures upper_bound { result ≤ 40 }
{
    if capability.on(Acs::E) {
        return 8 + 4 * ((capability.size() + 31) / 32);
    }
    8
}

impl Header<'_> {
    // It is one of ACS.
    pub(crate) fn is_acs(self) -> bool
        ensures { result ≡ rule.is_acs self.entry.image.bytes.now self.entry.at }
    {
        le::<u16>(self.image.bytes, usize::from(self.at)) == 0x000D
    }

    pub(crate) fn version(self) -> u16
        ensures { result ≡ rule.capability_version self.entry.image.bytes.now self.entry.at }
    {
        le::<u16>(self.image.bytes, usize::from(self.at) + 2) % 16
    }

    pub(crate) fn next_offset(self) -> u16
        ensures value { result ≡ rule.next_offset self.entry.image.bytes.now self.entry.at }
        ensures upper_bound { result < rule.image_size }
    {
        le::<u16>(self.image.bytes, usize::from(self.at) + 2) / 16
    }

    // The ACS structure that it begins.
    #[tactic(auto, unfolding(rules::specs::Image::structure_at))]
    pub fn structure(self) -> Result<Option<Extent>, Refusal>
        ensures { result ≡ rule.structure_at self.entry.image.bytes.now self.entry.at }
    {
        let image = self.image.bytes;
        let from = usize::from(self.at);
        if image.len() < from + 8 {
            return Err(Refusal::Capabilities); // its Capability is not there
        }
        let length = structure_length(Acs(le::<u16>(image, from + 4)));
        if self.version() == 1 {
            if from + usize::from(length) <= image.len() {
                return Ok(Some(Extent {
                    offset: self.at,
                    length,
                }));
            }
        }
        Err(Refusal::Capabilities)
    }
}
