//! A copy that makes no call for a few bytes.
ghost use Rattle.std.specs.Prelude.{◌≡◌, ◌+◌, ◌≤◌, length};

// Copies all of `src`. Up to 128 bytes go by their first words and their last, which may overlap: std's copy asks whether the
// slices overlap, and makes a call.
#[inline(always)]
pub(crate) fn copy_short(out: &mut [u8], src: &[u8])
    requires { length out.old ≡ length src.now }
    ensures { out.new ≡ src.now }
{
    let n = src.len();
    if n > 16 {
        if n <= 32 {
            copy_ends::<16>(out, src);
        } else if n <= 64 {
            copy_ends::<32>(out, src);
        } else if n <= 128 {
            copy_ends::<64>(out, src);
        } else {
            out.copy_from_slice(src);
        }
    } else if n >= 8 {
        copy_ends::<8>(out, src);
    } else if n >= 4 {
        copy_ends::<4>(out, src);
    } else if n >= 2 {
        copy_ends::<2>(out, src);
    } else if n == 1 {
        out[0] = src[0];
    }
}

// Copies the first `N` bytes and the last, which are all.
#[inline(always)]
fn copy_ends<const N: usize>(out: &mut [u8], src: &[u8])
    requires len { length out.old ≡ length src.now }
    requires least { N ≤ length src.now }
    requires most { length src.now ≤ N + N }
    ensures { out.new ≡ src.now }
{
    if let (Some(front), Some(first)) = (out.first_chunk_mut::<N>(), src.first_chunk::<N>()) {
        *front = *first;
    }
    if let (Some(back), Some(last)) = (out.last_chunk_mut::<N>(), src.last_chunk::<N>()) {
        *back = *last;
    }
}
