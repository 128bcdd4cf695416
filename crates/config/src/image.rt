// An image, its bus numbers, and its parts.
ghost use Rattle.std.specs.Prelude.{◌≡◌, ◌≢◌, Ok, Some, MatchOption, ◌+◌, ◌≤◌, length};
ghost use Rattle.rules.specs.Image as rule;

use rules::{Bus, Buses, Extent};

// The bytes of an image.
pub const IMAGE: usize = 4096;

// A whole configuration space image of a bridge.
#[derive(Clone, Copy)]
pub struct Image<'a> {
    pub bytes: &'a [u8],
    pub ghost whole: { length bytes.now ≡ rule.image_size },
}

impl<'a> Image<'a> {
    pub fn new(bytes: &'a [u8]) -> Option<Image<'a>>
        ensures { MatchOption result (length bytes.now ≢ rule.image_size) (λ image. image.bytes.now ≡ bytes.now) }
    {
        if bytes.len() == IMAGE {
            Some(Image { bytes })
        } else {
            None
        }
    }

    pub(crate) fn buses(self) -> Buses
        ensures primary_value { result.primary.0 ≡ rule.primary_bus self.entry.bytes.now }
        ensures secondary_value { result.secondary.0 ≡ rule.secondary_bus self.entry.bytes.now }
        ensures subordinate_value { result.subordinate.0 ≡ rule.subordinate_bus self.entry.bytes.now }
    {
        Buses {
            primary: Bus(self.bytes[0x18]),
            secondary: Bus(self.bytes[0x19]),
            subordinate: Bus(self.bytes[0x1A]),
        }
    }
}

// The part of an image that an ACS structure is; the image may have any length in which the structure
// ends.
pub fn part(image: &[u8], acs: Extent) -> &[u8]
    requires { acs.offset + acs.length ≤ length image.now }
    ensures { result.now ≡ rule.part_of image.now (Ok (Some acs)) }
{
    let from = usize::from(acs.offset);
    &image[from..from + usize::from(acs.length)]
}
