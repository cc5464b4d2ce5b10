// What a printer answers of itself.
ghost use Rattle.std.specs.Prelude.{◌≡◌};

use crate::printer::Printer;

impl Printer {
    // The length of the text that the sink held before this print.
    pub fn older(&self) -> usize
        ensures { result ≡ self.now.older }
    {
        self.older
    }

    // The newlines written so far.
    pub fn newlines(&self) -> u64
        ensures { result ≡ self.now.pen.newlines }
    {
        self.pen.newlines()
    }

    // The widest line written so far, at most 65,535.
    pub fn widest(&self) -> u16
        ensures { result ≡ self.now.pen.widest }
    {
        self.pen.widest()
    }
}
