// What the program prints of a job, as text.
#![tactic(auto)]

ghost use Rattle.std.specs.Prelude.{[], ◌∷◌, ◌++◌, ◌+◌, ◌*◌, ◌/◌, ◌≤◌, length, take, drop};
ghost use Rattle.torus.specs.Bytes.{words};
ghost use Rattle.report.specs.Text.{ascii, decimal};
ghost use Rattle.report.specs.Report as Report;
ghost use Rattle.report.specs.Inner.{Fits, Writes};

use answers::Answer;

// Text is written from the front of a lent slice, piece after piece.
#[derive(Drop)]
struct Writer<'a> {
    room: &'a mut [u8],
    // The place behind the text.
    at: usize,
}

impl<'a> Writer<'a> {
    // A piece.
    fn put(&mut self, text: &[u8])
        requires { Fits self.old (length text.now) }
        ensures { Writes self.old text.now self.new }
    {
        let end = self.at + text.len();
        self.room[self.at..end].copy_from_slice(text);
        self.at = end;
    }

    // A number in decimal.
    fn decimal(&mut self, n: u64)
        requires { Fits self.old 20 }
        ensures { Writes self.old (decimal n) self.new }
    {
        let mut digits = [0u8; 20];
        let first = itoa::write_digits(n, &mut digits, 20);
        self.put(&digits[first..]);
    }

    // A number on a line: a blank, then the number.
    fn number(&mut self, n: u64)
        requires { Fits self.old 21 }
        ensures { Writes self.old (ascii " " ++ decimal n) self.new }
    {
        self.put(b" ");
        self.decimal(n);
    }

    // A line of a name and one number.
    fn line(&mut self, name: &[u8], n: u64)
        requires { Fits self.old (length name.now + 22) }
        ensures { Writes self.old (Report.line name.now (n ∷ [])) self.new }
    {
        self.put(name);
        self.number(n);
        self.put(b"\n");
    }

    // A line of a name, the number of a word, and the word.
    fn word_line(&mut self, name: &[u8], i: usize, w: u32)
        requires { Fits self.old (length name.now + 43) }
        ensures { Writes self.old (Report.line name.now (i ∷ w ∷ [])) self.new }
    {
        self.put(name);
        self.number(i as u64);
        self.line(b"", w as u64);
    }

    // A line for each word of a slice.
    fn word_lines(&mut self, name: &[u8], ws: &[u8])
        requires { Fits self.old (length ws.now / 4 * (length name.now + 43)) }
        ensures { Writes self.old (Report.word_lines name.now (words ws.now)) self.new }
    {
        for i in 0..ws.len() / 4 {
            self.word_line(name, i, torus::word_at(ws, i));
        }
    }

    // A line for each word of a sample, whose first `masks` words are its masks.
    fn sample(&mut self, sample: &[u8], masks: usize)
        requires { (4 * masks ≤ length sample.now) × Fits self.old (length sample.now / 4 * 47) }
        ensures { Writes self.old
            (Report.sample_lines (take masks (words sample.now)) (drop masks (words sample.now)))
            self.new }
    {
        self.word_lines(b"mask", &sample[..4 * masks]);
        self.word_lines(b"body", &sample[4 * masks..]);
    }

    // The lines that are printed of every answer: its number and its bound.
    fn answer(&mut self, answer: Answer)
        requires { Fits self.old 55 }
        ensures { Writes self.old (Report.answer_lines answer) self.new }
    {
        self.line(b"answer", answers::number(answer) as u64);
        self.line(b"bound", answers::bound(answer));
    }

    // The whole output for an answer. Where it is an acceptance, the sample's first `masks` words are its masks.
    fn report(&mut self, answer: Answer, sample: &[u8], masks: usize)
        requires { (4 * masks ≤ length sample.now) × Fits self.old (82 + length sample.now / 4 * 47) }
        ensures { Writes self.old
            (Report.report answer (take masks (words sample.now)) (drop masks (words sample.now)))
            self.new }
    {
        self.answer(answer);
        let ledger = match answer {
            Ok(ledger) => ledger,
            Err(_) => return,
        };
        self.line(b"gates", ledger.gates);
        self.sample(sample, masks);
    }
}

// The whole output for an answer, at the front of a slice; how long it is. Where the answer is an acceptance, the sample's first
// `masks` words are its masks.
#[tactic(auto, using(crate::proofs::Pieces::written_back))]
pub fn write_report(room: &mut [u8], answer: Answer, sample: &[u8], masks: usize) -> usize
    requires { (4 * masks ≤ length sample.now) × (82 + length sample.now / 4 * 47 ≤ length room.old) }
    ensures { Report.Put room.old 0
        (Report.report answer (take masks (words sample.now)) (drop masks (words sample.now)))
        room.new result }
{
    let mut text = Writer { room, at: 0 };
    text.report(answer, sample, masks);
    text.at
}
