//! What a call asks a server for beside the refs that its specs map.

ghost use Rattle.std.specs.Prelude.{◌↔◌, map, IfOk, IsTrue};
ghost use Rattle.bstr.specs.BStr.{bstr_bytes};
ghost use Rattle.bstr.specs.Owned.{bstring_bytes};
ghost use Rattle.gix_refspec_text.specs.Texts.Name.{IsName};
ghost use Rattle.refspec_commands.specs.Prefixes.{AreBeside, AreNamed, AsksByName};

use bstr::{BStr, BString};
use gix_refspec::match_group::ref_names::is_ref_name;
use gix_refspec_text::name::name_partial;
use gix_refspec_text::side::candidates;
use gix_refspec_text::spec::prefix::one_entry;
use refspec_io::call::Call;
use std::alloc::{AllocError, Global};

/// The ref prefixes of the merged refs of a call, in order, and then of all tags, if it asks for these. Fails if memory
/// runs out.
pub fn beside_of(alloc: Global, call: &Call<'_>) -> Result<Vec<BString>, AllocError>
    ensures { IfOk result (λ list. AreBeside (map bstr_bytes call.now.merges.items) call.now.tags
        (map bstring_bytes list.items)) }
{
    let mut list = named(alloc, call.merges.as_slice())?;
    if call.tags {
        list.push(BString::from_slice(alloc, b"refs/tags/")?)?;
    }
    Ok(list)
}

// The ref prefixes of names, in order.
fn named(alloc: Global, names: &[BStr<'_>]) -> Result<Vec<BString>, AllocError>
    ensures { IfOk result (λ list. AreNamed (map bstr_bytes names.now) (map bstring_bytes list.items)) }
{
    let mut list = Vec::new(alloc);
    for name in names {
        let mut entries = entries_of(alloc, name.as_bytes())?;
        list.append(&mut entries)?;
    }
    Ok(list)
}

// The ref prefixes of a name: itself if it is `HEAD` or a full name, and the candidates of a partial name.
fn entries_of(alloc: Global, name: &[u8]) -> Result<Vec<BString>, AllocError>
    ensures { IfOk result (λ list. AsksByName name.now (map bstring_bytes list.items)) }
{
    if is_ref_name(name) {
        return one_entry(alloc, name);
    }
    if is_name(name) {
        return candidates(alloc, name);
    }
    Ok(Vec::new(alloc))
}

// Whether a text is a valid name, full or partial.
fn is_name(text: &[u8]) -> bool
    ensures { IsTrue result ↔ IsName text.now }
{
    name_partial(BStr::new(text)).is_ok()
}
