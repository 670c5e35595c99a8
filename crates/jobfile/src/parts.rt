// The parts of section two, brought together: a file has the amplitude and the block of a selector side by side.
ghost use Rattle.std.specs.Prelude.{◌≡◌, ◌+◌, ◌*◌, ◌≤◌, length};
ghost use Rattle.torus.specs.Bytes.{words};
ghost use Rattle.jobfile.specs.Reader as Reader;

// Section two behind its count: d parts, each the amplitude of a selector and its block of b words.
#[derive(Clone, Copy)]
pub struct SectionTwo<'a> {
    pub parts: &'a [u8],
    pub d: usize,
    pub b: usize,
    pub ghost there: { 4 * (d * (1 + b)) ≤ length parts.now },
    pub ghost small: { b ≤ 819200 },
}

impl SectionTwo<'_> {
    // The amplitudes, one after another.
    pub fn gather_amplitudes(&self, amplitudes: &mut [u8])
        requires { length amplitudes.old ≡ 4 * self.now.d }
        ensures { words amplitudes.new ≡ Reader.read_amplitudes self.now.b self.now.d (words self.now.parts.now) }
    {
        for i in 0..self.d {
            torus::put_word(amplitudes, i, torus::word_at(self.parts, i * (1 + self.b)));
        }
    }

    // The blocks likewise.
    pub fn gather_blocks(&self, blocks: &mut [u8])
        requires { length blocks.old ≡ 4 * (self.now.d * self.now.b) }
        ensures { words blocks.new ≡ Reader.read_blocks self.now.b self.now.d (words self.now.parts.now) }
    {
        let size = 4 * self.b;
        for i in 0..self.d {
            let to = i * size;
            let from = i * (4 + size) + 4;
            blocks[to..to + size].copy_from_slice(&self.parts[from..from + size]);
        }
    }
}
