// The machine that reads by the rules: the word under way, and the place at which it or the next
// word stands. It keeps what every state keeps that bytes lead to, so a word under way may stand at
// its place. What it refuses leaves that state as it was.
ghost use Rattle.std.specs.Prelude.{◌≡◌, length};
ghost use Rattle.rules.specs.Machine.{first_place};

use crate::bytes::Bytes;
use crate::reader::MOST_OPEN;
use arrayvec::ArrayVec;
use rules::language::Language;
use rules::place::{Bracket, Expects};
use rules::word::Inside;
use std::marker::{Model, PhantomData};

mod closing;
mod placing;
mod taking;

// The fields that begin as zeros stand first and together, so that a new machine is filled at one go.
#[derive(Drop)]
pub(crate) struct Machine<L: Language> {
    language: PhantomData<L>,
    // the bytes of the word under way, or of the collected word that is over
    word: Bytes,
    // the only byte so far of the word under way, as long as it waits to be put into `word`
    begun: Option<u8>,
    // how far the word under way has come; none between words
    inside: Option<Inside>,
    // what may come next, and the open brackets, the innermost last
    expects: Expects,
    brackets: ArrayVec<Bracket, MOST_OPEN>,
}

impl<L: Language> Model for Machine<L> {
    ghost use Rattle.reader.specs.State.{Held, state_of, Sound};

    ghost Value = { Held };

    ghost use Rattle.reader.specs.Fields.{held_of};

    ghost view = { held_of };

    ghost invariant = { λ m. Sound L.Language.rules (state_of (held_of m)) };
}

impl<L: Language> Machine<L> {
    ghost use Rattle.reader.specs.State.{state_of, Sound, settled};

    // A machine before the first byte.
    #[tactic(auto, using(crate::proofs::Sound::sound_fresh))]
    pub(crate) fn new() -> Machine<L>
        ensures place { result.place ≡ first_place L.Language.rules }
        ensures inside { result.inside ≡ None }
    {
        Machine {
            language: PhantomData,
            word: Bytes::new(),
            begun: None,
            inside: None,
            expects: L::start(),
            brackets: ArrayVec::new(),
        }
    }

    // What every machine keeps.
    pub(crate) fn is_sound(&self)
        ensures { Sound L.Language.rules (state_of self.now) }
    {
        let _expects = self.expects;
    }

    // The bytes collected last.
    pub(crate) fn collected(&self) -> &[u8]
        ensures { result.now ≡ self.now.bytes }
    {
        self.word.as_slice()
    }

    // How many brackets are open.
    pub(crate) fn depth(&self) -> u32
        ensures { result ≡ length self.now.place.brackets }
    {
        self.brackets.len() as u32
    }

    // Collects the byte that waits.
    fn settle(&mut self)
        ensures { self.new ≡ settled self.old }
    {
        if let Some(first) = self.begun {
            self.word.begin(first);
            self.begun = None;
        }
    }
}
