// The trait of sinks. A sink means a text and a rule; the rule stays the same, admits the text held, and with a text each beginning of it.
// Putting a byte adds it if the rule admits the longer text; else it is refused, and nothing changes.

ghost use Rattle.std.specs.Prelude.{◌≡◌, ℕ, List, [], ◌∷◌, ◌++◌, length, MatchResult};
ghost use Rattle.sink.specs.Rule.{Rule, Laws, Taken, Barred, told};

use crate::fault::Refusal;

pub trait Sink {
    // the sink's kind, which its own refusals carry: a number, since a sink elsewhere has a kind of its own
    ghost kind: { ℕ };

    // the text held
    ghost text: { Self → List ℕ };

    // which texts are admitted, and why another is not
    ghost rule: { Self → Rule };

    // what every change of a sink keeps: it holds between a sink and what becomes of it
    ghost later: { Self → Self → Type 0 };

    // The kind: a function, since a constant is not proved to be the ghost member at a type with a lifetime, as a window.
    fn kind() -> u8
        ensures { result ≡ kind };

    // The length of the text.
    fn len(&self) -> usize
        ensures { result ≡ length (text self.now) };

    // Adds a byte to the text, or refuses it and changes nothing. That the rule stays is a clause here and of each call that writes, since a law
    // that `later` keeps it would ask more of every sink.
    fn put(&mut self, byte: u8) -> Result<(), Refusal>
        ensures rule { rule self.new ≡ rule self.old }
        ensures later { later self.old self.new }
        ensures cases { MatchResult result (λ _. Taken (rule self.old).admits (text self.old) byte (text self.new)) (λ e. Barred (rule self.old).admits (text self.old) byte × (self.new ≡ self.old) × (told kind e ≡ (rule self.old).reason (text self.old ++ byte ∷ []))) };

    // the laws of text, rule and later
    ghost laws: { Laws text rule later };
}
