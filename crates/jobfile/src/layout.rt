// The limit and the layout of a job file, as in specs/Layout.antt, and the rooms for what a file can hold: their sizes, in bytes, follow
// from a few limits.
ghost use Rattle.std.specs.Prelude.{◌≡◌, ◌≤◌, length};
ghost use Rattle.jobfile.specs.Layout as Layout;

// The bytes of the largest file.
pub const LARGEST_FILE: usize = 65536;

// The largest sample. With more masks it grows, and so do WORK_ROOM and TEXT_ROOM; the others stay.
pub const SAMPLE_ROOM: usize = 4 * trgsw::LARGEST_SAMPLE;

// The work of a lookup: a sample for each selector, and one more.
pub const WORK_ROOM: usize = SAMPLE_ROOM * (tables::VERTICAL_SELECTORS as usize + 1);

// All blocks of a file.
pub const BLOCKS_ROOM: usize = LARGEST_FILE;

// An amplitude for each selector.
pub const AMPLITUDES_ROOM: usize = 4 * tables::VERTICAL_SELECTORS as usize;

// The text for the largest sample: 82 bytes for the lines of answer, bound and gates, and 47 for the line of each word, numbers of twenty
// digits in all of them.
pub const TEXT_ROOM: usize = 82 + 47 * (SAMPLE_ROOM / 4);

// Room for N bytes. A function, so that a proof sees its length and not its bytes.
pub fn room<const N: usize>() -> [u8; N]
    ensures { N ≡ length result }
{
    [0; N]
}

// Whether section one may have this count.
pub(crate) fn is_first_count(count: u32) -> bool
    ensures { result ≡ Layout.is_first_count count }
{
    count == 5
}

// The place of the count d.
pub(crate) fn depth_at(count: u32) -> usize
    ensures { (result ≡ Layout.depth_at count) × (result ≤ 6) }
{
    let numbers = if is_first_count(count) {
        count as usize
    } else {
        5
    };
    1 + numbers
}

// The words of the header.
pub(crate) fn header_words(count: u32) -> usize
    ensures { result ≡ Layout.header_words count }
{
    1 + depth_at(count)
}
