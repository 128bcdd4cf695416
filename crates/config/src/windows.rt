// The memory window and the prefetchable window.
ghost use Rattle.std.specs.Prelude.{◌≡◌, ◌+◌, ◌*◌, ◌^◌, ◌≤◌};
ghost use Rattle.rules.specs.Image as rule;

use crate::image::Image;
use layout::range::CLOSED;
use numbers::le;
use rules::Range;

// Closed where the base is above the limit.
#[tactic(auto, unfolding(rules::specs::Image::window))]
fn window(base: u64, limit: u64) -> Range
    ensures { result ≡ rule.window base limit }
{
    if limit < base {
        return CLOSED;
    }
    Range {
        first: base,
        last: limit,
    }
}

// The address of a base register: its bits 15:4 are bits 31:20.
fn base_address(register: u16) -> u32
    ensures { result ≡ rule.base_address register }
{
    0x100000 * u32::from(register / 16)
}

// The address of a limit register has ones below.
fn limit_address(register: u16) -> u32
    ensures { result ≡ rule.limit_address register }
{
    base_address(register) + 0xFFFFF
}

// An address of two halves.
fn wide(low: u32, high: u32) -> u64
    ensures { result ≡ low + 2 ^ 32 * high }
{
    u64::from(low) + 0x1_0000_0000 * u64::from(high)
}

impl Image<'_> {
    #[tactic(auto, unfolding(rules::specs::Image::memory_window))]
    pub(crate) fn memory_window(self) -> Range
        ensures { result ≡ rule.memory_window self.entry.bytes.now }
    {
        let base = base_address(le::<u16>(self.bytes, 0x20));
        let limit = limit_address(le::<u16>(self.bytes, 0x22));
        window(u64::from(base), u64::from(limit))
    }

    // The upper half at this offset counts only where the base's low four bits are not 0.
    #[tactic(auto, unfolding(rules::specs::Image::upper_half))]
    fn upper_half(self, at: usize) -> u32
        requires { at + 4 ≤ rule.image_size }
        ensures { result ≡ rule.upper_half self.entry.bytes.now at }
    {
        if le::<u16>(self.bytes, 0x24) % 16 == 0 {
            return 0;
        }
        le(self.bytes, at)
    }

    #[tactic(auto, unfolding(rules::specs::Image::prefetchable_window))]
    pub(crate) fn prefetchable_window(self) -> Range
        ensures { result ≡ rule.prefetchable_window self.entry.bytes.now }
    {
        let base = wide(
            base_address(le::<u16>(self.bytes, 0x24)),
            self.upper_half(0x28),
        );
        let limit = wide(
            limit_address(le::<u16>(self.bytes, 0x26)),
            self.upper_half(0x2C),
        );
        window(base, limit)
    }
}
