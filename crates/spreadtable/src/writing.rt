// Text behind what is written of a page.
ghost use Rattle.std.specs.Prelude.{◌≡◌, ◌+◌, ◌≤◌, length};
ghost use Rattle.spreadtable.specs.Page.{no_page};
ghost use Rattle.spreadtable.specs.laws.Writing.{appended};

use crate::Written;

// Nothing is written.
pub fn empty() -> Written
    ensures { result ≡ record { page = no_page; length = 0 } }
{
    let page = [0u8; 4112];
    Written { page, length: 0 }
}

// A text behind what is written.
pub fn append(w: Written, text: &[u8]) -> Written
    requires { w.length + length text.now ≤ 4112 }
    ensures { result ≡ appended w text.now }
{
    let mut page = w.page;
    let mut length = w.length;
    for byte in text {
        page[length] = *byte;
        length += 1;
    }
    Written { page, length }
}
