// How an input is framed.
ghost use Rattle.std.specs.Prelude.{◌≡◌};
ghost use Rattle.report.specs.Framing.{framed};

use numbers::le;

// The length of its snapshot, of an input as long as its two lengths say; none of one that is shorter
// or longer. Lengths are widened by `as`, as in `tell`. The least input has 13 bytes beside its snapshot and its header.
pub fn read_frame(input: &[u8]) -> Option<u16>
    ensures { result ≡ framed input.now }
{
    if input.len() < 13 {
        return None;
    }
    let snapshot = le::<u16>(input, 0);
    let at = (snapshot as usize) + 12;
    let header = *input.get(at)? as usize;
    (input.len() - at == header + 1).then_some(snapshot)
}
