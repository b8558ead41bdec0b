//! The borders of a text: the words that it both begins and ends with.

ghost use Rattle.std.specs.Prelude.{◌≡◌, ◌+◌, ◌<◌, length, vec_len, IfOk};
ghost use Rattle.gix_refspec_lint.specs.Private.Borders.{AreBorders, AreLongestTo, IsLongestAt};

use std::alloc::{AllocError, Global};

// The lengths of the borders of a text: how many of its first bytes it also ends with, without its own length. Longest first.
pub(super) fn borders(alloc: Global, text: &[u8]) -> Result<Vec<usize>, AllocError>
    ensures { IfOk result (λ lengths. AreBorders text.now lengths.items) }
{
    if text.is_empty() {
        return Ok(Vec::new(alloc));
    }
    let table = longest_borders(alloc, text)?;
    borders_from(alloc, text, &table)
}

// The table of Knuth, Morris and Pratt, which keeps the time linear: entry `len` is the longest border of the text's first
// `len` bytes, or 0.
fn longest_borders(alloc: Global, text: &[u8]) -> Result<Vec<usize>, AllocError>
    ensures len { IfOk result (λ table. vec_len table ≡ length text.now + 1) }
    ensures longest { IfOk result (λ table. AreLongestTo text.now table.items (length text.now)) }
{
    let mut table = Vec::from_elem(alloc, 0, text.len() + 1)?;
    for len in 1..text.len() {
        let border = next_border(text, &table, len);
        table[len + 1] = border;
    }
    Ok(table)
}

// The longest border of the first `len + 1` bytes, or 0.
fn next_border(text: &[u8], table: &[usize], len: usize) -> usize
    requires some { 0 < len }
    requires within { len < length text.now }
    requires long { length table.now ≡ length text.now + 1 }
    requires known { AreLongestTo text.now table.now len }
    ensures { IsLongestAt text.now (len + 1) result }
{
    let mut border = table[len];
    while text[border] != text[len] {
        if border == 0 {
            return 0;
        }
        border = table[border];
    }
    border + 1
}

// The longest border, the longest border of that, and so on.
fn borders_from(alloc: Global, text: &[u8], table: &[usize]) -> Result<Vec<usize>, AllocError>
    requires some { 0 < length text.now }
    requires long { length table.now ≡ length text.now + 1 }
    requires known { AreLongestTo text.now table.now (length text.now) }
    ensures { IfOk result (λ lengths. AreBorders text.now lengths.items) }
{
    let mut lengths = Vec::new(alloc);
    let mut len = table[text.len()];
    while len > 0 {
        lengths.push(len)?;
        len = table[len];
    }
    Ok(lengths)
}
