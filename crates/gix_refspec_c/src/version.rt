//! The version of the library that runs.

ghost use Rattle.std.specs.Prelude.{◌≡◌};
ghost use Rattle.gix_refspec_c.specs.Explanation.{version};

use crate::explanation::{Text, before_nul};

/// Sets `text` to the version of the library that runs, which may be newer than the header that a
/// caller was built with. In memory a NUL follows it, which its length doesn't count. Returns 0.
#[unsafe(no_mangle)]
pub extern "C" fn gix_refspec_version(text: &mut Text<'static>) -> u32
    ensures outcome { result ≡ 0 }
    ensures text { text.new.bytes.now ≡ version }
{
    *text = before_nul(b"0.3.0\0");
    0
}
