// Checks several bytes of a name at once.

ghost use Rattle.std.specs.Prelude.{◌≡◌, ◌<◌, ◌≤◌, ◌+◌, length};
ghost use Rattle.gix_refspec_text.specs.Private.Scan.{AreCalm, lowest_of};

use std::simd::prelude::*;

/// How many bytes are checked at once.
pub(super) const LANES: usize = 16;

/// How many of the bytes from the index `at` on are calm, as most bytes of a name are: letters, digits,
/// `-`, `@`, `_` and the byte before `a`, and each slash that doesn't follow a slash or a `k`, the last
/// byte of `.lock`. Other harmless bytes end the run too; the caller checks them one by one.
#[inline(always)]
pub(super) fn calm_run(text: &[u8], at: usize) -> usize
    requires { (0 < at) × (at + LANES ≤ length text.now) }
    ensures { AreCalm text.now at (at + result) × (result ≤ LANES) }
{
    let bytes = u8x16::from_slice(&text[at..]);
    let before = u8x16::from_slice(&text[at - 1..]);
    let stops = bytes.simd_lt(u8x16::splat(b'-'))
        | bytes.simd_eq(u8x16::splat(b'.'))
        | (bytes.simd_gt(u8x16::splat(b'9')) & bytes.simd_lt(u8x16::splat(b'@')))
        | (bytes.simd_gt(u8x16::splat(b'Z')) & bytes.simd_lt(u8x16::splat(b'_')))
        | bytes.simd_gt(u8x16::splat(b'z'));
    let ends = before.simd_eq(u8x16::splat(b'/')) | before.simd_eq(u8x16::splat(b'k'));
    first_set((stops | (bytes.simd_eq(u8x16::splat(b'/')) & ends)).to_bitmask())
}

// The index of the lowest set bit, or `LANES` if none is set.
#[inline(always)]
fn first_set(mask: u64) -> usize
    ensures { result ≡ lowest_of LANES mask }
{
    if mask == 0 {
        LANES
    } else {
        mask.trailing_zeros() as usize
    }
}
