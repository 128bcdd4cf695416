// The TLP header: what routing asks of it, or that it is bad.
#![tactic(auto)]

mod form;
mod header;

ghost use Rattle.std.specs.Prelude.{◌≡◌};
ghost use Rattle.tlp.specs.Header.{header_read};

use rules::Tlp;

// The header in a slice of any length; `None` where it is bad.
pub fn read_header(h: &[u8]) -> Option<Tlp>
    ensures { result ≡ header_read h.now }
{
    header::Header::new(h)?.tlp()
}
